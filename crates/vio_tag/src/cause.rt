ghost use Rattle.std.specs.Prelude.{◌≡◌, ◌≤◌, length, Some};
ghost use Rattle.vio_tag.specs.CauseText.{cause_text, copy_word, packet_word, tag_word};

use crate::message::TagFault;
use ldc_packet::PacketFault;
use std::fmt;

/// Why an end of a link was reset.
#[derive(Clone, Copy, Debug, PartialEq, Eq)]
pub enum Cause {
    /// The script asked for it.
    Asked,
    /// The server was restarted.
    Restart,
    /// Nothing came any more.
    Tick,
    /// Bytes that are no packet.
    Packet(PacketFault),
    /// A packet with another seqid than the next one.
    Gap { expected: u32, found: u32 },
    /// A link that isn't meant to be as ours, by its mode.
    Mode { found: u8 },
    /// A version that wasn't agreed on.
    Version,
    /// A packet that isn't one of the link's state.
    Unexpected,
    /// Parts that make no message.
    Fragment,
    /// Bytes that are no message.
    Tag(TagFault),
    /// A message of another session.
    Sid { expected: u32, found: u32 },
    /// A message that isn't one of the handshake's state.
    Order,
    /// A refusal, or an answer of a handshake that this end doesn't accept.
    Refused,
    /// Another ring.
    Ident { expected: u64, found: u64 },
    /// Another number than the next one.
    Seq { expected: u64, found: u64 },
    /// Another descriptor than the next one.
    Slot { expected: u32, found: u32 },
    /// An end that isn't in the ring, or lies past what was announced.
    RangeEnd { found: u32 },
    /// An announced descriptor that isn't READY.
    NotReady { slot: u32, state: u8 },
    /// An acknowledged descriptor that isn't DONE.
    NotDone { slot: u32, state: u8 },
    /// A frame that is too short or too long, or has no cookie or too many.
    Frame { size: u32, count: u32 },
    /// A copy that was refused, by the number of its fault: 1 `Channel`, 2 `BadAlign`, 3 `Short`,
    /// 4 `BadPage`, 5 `NoMap`, 6 `NoAccess`.
    Copy(u8),
}

/// The text of a `reset` line.
impl fmt::Display for Cause {
    ghost output = { λ cause. Some (cause_text cause) };

    fn fmt<W: fmt::Write>(&self, f: &mut fmt::Formatter<W>) -> fmt::Result {
        match *self {
            Cause::Asked => write!(f, "asked"),
            Cause::Restart => write!(f, "restart"),
            Cause::Tick => write!(f, "tick"),
            Cause::Packet(fault) => write!(f, "packet {}", packet_word(fault)),
            Cause::Gap { expected, found } => write!(f, "gap expected={expected} found={found}"),
            Cause::Mode { found } => write!(f, "mode found={found}"),
            Cause::Version => write!(f, "version"),
            Cause::Unexpected => write!(f, "unexpected"),
            Cause::Fragment => write!(f, "fragment"),
            Cause::Tag(fault) => write!(f, "tag {}", tag_word(fault)),
            Cause::Sid { expected, found } => write!(f, "sid expected={expected} found={found}"),
            Cause::Order => write!(f, "order"),
            Cause::Refused => write!(f, "refused"),
            Cause::Ident { expected, found } => {
                write!(f, "ident expected={expected} found={found}")
            }
            Cause::Seq { expected, found } => write!(f, "seq expected={expected} found={found}"),
            Cause::Slot { expected, found } => write!(f, "slot expected={expected} found={found}"),
            Cause::RangeEnd { found } => write!(f, "end found={found}"),
            Cause::NotReady { slot, state } => write!(f, "notready slot={slot} state={state}"),
            Cause::NotDone { slot, state } => write!(f, "notdone slot={slot} state={state}"),
            Cause::Frame { size, count } => write!(f, "frame size={size} cookies={count}"),
            Cause::Copy(fault) => write!(f, "copy {}", copy_word(fault)),
        }
    }
}

/// The word of what is wrong with a packet.
pub fn packet_word(fault: PacketFault) -> &'static str
    ensures word { result.now ≡ packet_word fault }
    ensures short { length result.now ≤ 8 }
{
    match fault {
        PacketFault::Kind => "kind",
        PacketFault::Subtype => "subtype",
        PacketFault::Ctrl => "ctrl",
        PacketFault::Length => "length",
    }
}

/// The word of what is wrong with a message.
pub fn tag_word(fault: TagFault) -> &'static str
    ensures word { result.now ≡ tag_word fault }
    ensures short { length result.now ≤ 8 }
{
    match fault {
        TagFault::Short => "short",
        TagFault::Kind => "kind",
        TagFault::Subtype => "subtype",
        TagFault::Envelope => "envelope",
        TagFault::Length => "length",
        TagFault::Cookies => "cookies",
    }
}

/// The word of the fault with this number. No other number is ever said.
fn copy_word(fault: u8) -> &'static str
    ensures { result.now ≡ copy_word fault }
{
    match fault {
        1 => "channel",
        2 => "badalign",
        3 => "short",
        4 => "badpage",
        5 => "nomap",
        6 => "noaccess",
        _ => "unknown",
    }
}
