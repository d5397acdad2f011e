/// What a port is made with: its address, the slots of its rings, 2 to 64, and the entries of its queues, 8 to 256,
/// both powers of two.
#[derive(Clone, Copy, Debug, PartialEq, Eq)]
pub struct PortShape {
    pub address: [u8; 6],
    pub slots: u32,
    pub entries: u32,
}
