ghost use Rattle.std.specs.Prelude.{◌≡◌, ◌≢◌, ◌≤◌, ◌↔◌, None, false, true, [], length, drop, ◌<◌, is_some, IfSome, IsErr, OnErr, OnOk};
ghost use Rattle.std.specs.Option.{option_copied};
ghost use Rattle.ldc_packet.specs.Form.{IsWellFormed};
ghost use Rattle.ldc_packet.specs.Parts.{part_packet};
ghost use Rattle.ldc_packet.specs.Spelling.{canonical};
ghost use Rattle.ldc_queue.specs.ChannelView.{configured_channel};
ghost use Rattle.ldc_queue.specs.Wire.{state_of};
ghost use Rattle.ldc_queue.specs.declared.end.ChannelState.TheVariants.{Up};

use crate::answers::{Busy, SendOut, TakeOut};
use crate::handshake::{MAJOR, MODE, first_phase};
use crate::packets::{PART, info, version};
use crate::phase::{LinkPhase, Role};
use arrayvec::ArrayVec;
use ldc_packet::{Body, Packet, PartHead, Subtype, encode, encode_part};
use ldc_queue::{Channel, End, PutFault};
use std::marker::Model;
use vio_tag::Cause;

/// One end of a link. It holds all inline, so no call takes memory.
#[derive(Drop)]
pub struct Link {
    role: Role,
    pub(crate) phase: LinkPhase,
    put_next: u32,
    pub(crate) take_next: u32,
    pub(crate) heard: ArrayVec<u8, 256>,
    pub(crate) whole: bool,
    offered: ArrayVec<u8, 256>,
    sent: usize,
    begun: bool,
}

impl Model for Link {
    ghost use Rattle.std.specs.Prelude.{◌≤◌, drop, length};
    ghost use Rattle.ldc_link.specs.LinkState.{LinkState};
    ghost use Rattle.ldc_link.specs.Hearing.{half_of, message_of};

    ghost Value = { LinkState };

    ghost view = { λ k. record {
      role = k.role;
      phase = k.phase;
      put_next = k.put_next;
      take_next = k.take_next;
      half_heard = half_of k.whole k.heard.items;
      whole = message_of k.whole k.heard.items;
      to_send = drop k.sent k.offered.items;
      begun = k.begun;
    } };

    ghost invariant = { λ k. k.sent ≤ length k.offered.items };
}

impl Link {
    ghost use Rattle.ldc_link.specs.Calls.{Sends, Takes};
    ghost use Rattle.ldc_link.specs.LinkState.{cleared, fresh_link, is_up, joined_link, offered};
    ghost use Rattle.ldc_link.specs.Putting.{owes, owes_control};

    /// A link before its handshake.
    pub fn new(role: Role) -> Link
        ensures { result ≡ fresh_link role }
    {
        Link {
            role,
            phase: first_phase(role),
            put_next: 1,
            take_next: 1,
            heard: ArrayVec::new(),
            whole: false,
            offered: ArrayVec::new(),
            sent: 0,
            begun: false,
        }
    }

    /// Configures the end and begins the handshake anew.
    pub fn join(&mut self, channel: &mut Channel, end: End)
        ensures link { self.new ≡ joined_link self.old }
        ensures channel { channel.new ≡ configured_channel end channel.old }
    {
        channel.configure(end);
        self.forget();
    }

    /// Begins anew without touching the channel.
    pub fn forget(&mut self)
        ensures { self.new ≡ joined_link self.old }
    {
        self.phase = first_phase(self.role);
        self.put_next = 1;
        self.take_next = 1;
        self.heard.clear();
        self.whole = false;
        self.offered.clear();
        self.sent = 0;
        self.begun = false;
    }

    /// Whether messages pass: RDX was put or taken.
    pub fn is_up(&self) -> bool
        ensures { result ≡ is_up self.now }
    {
        match self.phase {
            LinkPhase::Established => true,
            _ => false,
        }
    }

    /// Whether a packet of the handshake is to be put.
    pub fn owes_control(&self) -> bool
        ensures { result ≡ owes_control self.now }
    {
        self.phase.owes()
    }

    /// Whether any packet is to be put.
    #[tactic(auto, using(crate::proofs::Owing::owes_up, crate::proofs::Owing::owes_down))]
    pub fn owes(&self) -> bool
        ensures { result ≡ owes self.now }
    {
        if self.is_up() {
            self.owes_part()
        } else {
            self.phase.owes()
        }
    }

    /// Puts the packet that is owed, if any and if there is room: that of the handshake, or else the next part of the offered message.
    #[tactic(auto, using(crate::proofs::Owing::puts_owed, crate::proofs::Owing::nothing_put))]
    pub fn send(&mut self, channel: &mut Channel, end: End) -> SendOut
        requires { state_of end channel.old.wire ≡ Up }
        ensures { Sends end self.old channel.old result self.new channel.new }
    {
        if !self.owes() {
            return SendOut::Nothing;
        }
        let mut packet = [0; 64];
        self.write_owed(&mut packet);
        match channel.put(end, &packet) {
            Ok(()) => {
                self.note_put();
                SendOut::Sent(packet)
            }
            Err(PutFault::Full) => SendOut::Blocked,
            Err(PutFault::NotUp) => unreachable!(),
        }
    }

    /// Takes the packet that has waited longest, if any. Where it isn't taken, the answer has the first cause in the order of
    /// `Packet`, `Gap`, `Mode`, `Version`, `Unexpected`, `Fragment`.
    pub fn take(&mut self, channel: &mut Channel, end: End) -> TakeOut
        requires up { state_of end channel.old.wire ≡ Up }
        requires nothing_owed { owes_control self.old ≡ false }
        requires no_message { self.old.whole ≡ None }
        ensures { Takes end self.old channel.old result self.new channel.new }
    {
        if channel.waiting(end) == 0 {
            return TakeOut::Nothing;
        }
        self.take_first(channel, end)
    }

    /// The message that is whole, until `clear_message`.
    pub fn message(&self) -> Option<&[u8]>
        ensures { option_copied result ≡ self.now.whole }
    {
        if self.whole {
            Some(self.heard.as_slice())
        } else {
            None
        }
    }

    /// Lets the message that is whole go.
    pub fn clear_message(&mut self)
        ensures { self.new ≡ cleared self.old }
    {
        if self.whole {
            self.heard.clear();
            self.whole = false;
        }
    }

    /// Offers a message of 1 to 256 bytes, whose parts are then owed.
    pub fn offer(&mut self, bytes: &[u8]) -> Result<(), Busy>
        requires up { is_up self.old ≡ true }
        requires some { 1 ≤ length bytes.now }
        requires most { length bytes.now ≤ 256 }
        ensures busy { IsErr result ↔ (self.old.to_send ≢ []) }
        ensures ok { OnOk result ((self.old.to_send ≡ []) × (self.new ≡ offered bytes.now self.old)) }
        ensures refused { OnErr result (self.new ≡ self.old) }
    {
        if self.sent < self.offered.len() {
            return Err(Busy);
        }
        self.offered.clear();
        let _offered = self.offered.try_extend_from_slice(bytes);
        self.sent = 0;
        self.begun = false;
        Ok(())
    }
}

// What a link puts.
impl Link {
    ghost use Rattle.ldc_link.specs.LinkState.{is_up, next_number};
    ghost use Rattle.ldc_link.specs.Putting.{behind_put, first_part, has_more, owed_packet, owes, part_owed};

    // Whether a part of what was offered is left.
    #[tactic(auto, using(crate::proofs::Owing::left_part, crate::proofs::Owing::none_left))]
    fn owes_part(&self) -> bool
        ensures { result ≡ is_some (part_owed self.now self.now.to_send) }
    {
        !self.left().is_empty()
    }

    // Writes the packet that is owed.
    #[tactic(auto, using(crate::proofs::Owing::part_spelled))]
    fn write_owed(&self, bytes: &mut [u8; 64])
        requires { owes self.now ≡ true }
        ensures { IfSome (owed_packet self.now) (λ packet. bytes.new ≡ canonical packet) }
    {
        if self.is_up() {
            self.write_part(bytes);
        } else {
            self.write_control(bytes);
        }
    }

    // Writes the next part of what was offered.
    fn write_part(&self, bytes: &mut [u8; 64])
        ensures { bytes.new ≡ canonical (first_part self.now) }
    {
        encode_part(self.head_of_part(), self.left(), bytes);
    }

    fn head_of_part(&self) -> PartHead
        ensures packet { part_packet result self.now.to_send ≡ first_part self.now }
        ensures within { result.len ≤ 56 }
        ensures long { result.len ≤ length self.now.to_send }
    {
        let left = self.left().len();
        PartHead {
            seqid: self.put_next,
            start: !self.begun,
            stop: left <= PART,
            len: left.min(PART) as u8,
        }
    }

    fn left(&self) -> &[u8]
        ensures { result.now ≡ self.now.to_send }
    {
        &self.offered.as_slice()[self.sent..]
    }

    // Writes the packet of the handshake that is owed. Not within its caller, so that a part passes by the packet that
    // is made.
    #[inline(never)]
    fn write_control(&self, bytes: &mut [u8; 64])
        requires owes { owes self.now ≡ true }
        requires not_up { is_up self.now ≡ false }
        ensures { IfSome (owed_packet self.now) (λ packet. bytes.new ≡ canonical packet) }
    {
        match self.owed_control() {
            Some(packet) => encode(&packet, bytes),
            None => unreachable!(),
        }
    }

    // The packet of the handshake that is owed, if any.
    fn owed_control(&self) -> Option<Packet>
        requires { is_up self.now ≡ false }
        ensures packet { result ≡ owed_packet self.now }
        ensures form { IfSome result IsWellFormed }
    {
        match self.phase {
            LinkPhase::OwesVersInfo => Some(version(Subtype::Info, MAJOR)),
            LinkPhase::OwesVersAck => Some(version(Subtype::Ack, MAJOR)),
            LinkPhase::OwesVersNack { major } => Some(version(Subtype::Nack, major)),
            LinkPhase::OwesRts => Some(info(0, Body::Rts { mode: MODE })),
            LinkPhase::OwesRtr => Some(info(0, Body::Rtr { mode: MODE })),
            LinkPhase::OwesRdx => Some(info(self.put_next, Body::Rdx)),
            LinkPhase::Established => unreachable!(),
            LinkPhase::AwaitsVersAck
            | LinkPhase::AwaitsRtr
            | LinkPhase::AwaitsVersInfo
            | LinkPhase::AwaitsRts
            | LinkPhase::AwaitsRdx => None,
        }
    }

    // The link after putting what it owes.
    fn note_put(&mut self)
        ensures { self.new ≡ behind_put self.old }
    {
        match self.phase {
            LinkPhase::OwesRdx => self.count_put(),
            LinkPhase::Established => {
                self.count_put();
                self.note_part();
            }
            _ => {}
        }
        self.phase = self.phase.put();
    }

    fn count_put(&mut self)
        ensures { self.new ≡ record self.old { put_next = next_number self.old.put_next } }
    {
        self.put_next = self.put_next.wrapping_add(1);
    }

    fn note_part(&mut self)
        ensures { self.new ≡ record self.old { to_send = drop 56 self.old.to_send; begun = has_more self.old.to_send } }
    {
        let left = self.offered.len() - self.sent;
        self.begun = left > PART;
        self.sent += left.min(PART);
    }
}

// What a link takes.
impl Link {
    ghost use Rattle.ldc_link.specs.Calls.{Takes};

    // Takes the packet that has waited longest. Not within its caller, so that where none waits nothing is done.
    #[inline(never)]
    fn take_first(&mut self, channel: &mut Channel, end: End) -> TakeOut
        requires up { state_of end channel.old.wire ≡ Up }
        requires no_message { self.old.whole ≡ None }
        ensures { Takes end self.old channel.old result self.new channel.new }
    {
        let mut packet = [0; 64];
        let Ok(true) = channel.take_into(end, &mut packet) else {
            return TakeOut::Nothing;
        };
        match self.take_bytes(&packet) {
            Ok(()) => TakeOut::Took(packet),
            Err(cause) => TakeOut::Fault { packet, cause },
        }
    }
}
