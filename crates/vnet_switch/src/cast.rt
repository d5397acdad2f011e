// Whom a destination names.

ghost use Rattle.vnet_switch.specs.Forward.{IsCast};

/// The destination of a frame for every port.
const BROADCAST: [u8; 6] = [0xff; 6];

/// Whom a destination names.
#[derive(Clone, Copy, Debug, PartialEq, Eq)]
pub(crate) enum Cast {
    /// Every port.
    Broadcast,
    /// A group: the first byte is odd.
    Multicast,
    /// One port.
    Unicast,
}

impl Cast {
    /// That of a destination.
    pub(crate) fn of(destination: &[u8; 6]) -> Cast
        ensures { IsCast result destination.now }
    {
        if *destination == BROADCAST {
            Cast::Broadcast
        } else if destination[0] % 2 == 1 {
            Cast::Multicast
        } else {
            Cast::Unicast
        }
    }
}
