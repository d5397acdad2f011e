// What a packet says.

/// Whether a packet asks, agrees or refuses; `stype` in Linux's `struct ldc_packet`.
#[derive(Clone, Copy, Debug, PartialEq, Eq)]
pub enum Subtype {
    Info,
    Ack,
    Nack,
}

/// The packets of this profile: the control packets of the link's handshake, in its order, and a part
/// of a message.
#[derive(Clone, Copy, Debug, PartialEq, Eq)]
pub enum Body {
    /// The version that is offered or agreed on.
    Vers {
        major: u16,
        minor: u16,
    },
    /// Ready to send, in a mode: RAW 0, UNRELIABLE 1, STREAM 3.
    Rts {
        mode: u8,
    },
    /// Ready to receive, in a mode.
    Rtr {
        mode: u8,
    },
    /// Ready for data.
    Rdx,
    /// The first `len` of `bytes` are a part of a message, which begins with this part where `start`
    /// stands and ends with it where `stop` stands.
    Part {
        start: bool,
        stop: bool,
        len: u8,
        bytes: [u8; 56],
    },
}

/// A packet. It is well formed unless it is a part whose subtype isn't `Info`, whose `len` isn't 1 to
/// 56, or whose bytes past `len` aren't zeros.
#[derive(Clone, Copy, Debug, PartialEq, Eq)]
pub struct Packet {
    pub subtype: Subtype,
    pub seqid: u32,
    pub body: Body,
}

/// Why 64 bytes are no packet, in the order in which it is tested.
#[derive(Clone, Copy, Debug, PartialEq, Eq)]
pub enum PacketFault {
    /// The type is neither CTRL nor DATA.
    Kind,
    /// The subtype is none of INFO, ACK and NACK, or that of a data packet isn't INFO.
    Subtype,
    /// A control packet is none of VERS, RTS, RTR and RDX.
    Ctrl,
    /// The length of a data packet isn't 1 to 56.
    Length,
}
