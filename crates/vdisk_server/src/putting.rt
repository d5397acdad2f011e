// What is put: the rest of what the link owes, a message of the handshake, or the answer to a range.

ghost use Rattle.std.specs.Prelude.{◌≡◌, [], is_some, true, false};
ghost use Rattle.ldc_link.specs.LinkState.{is_up, offered};
ghost use Rattle.ldc_link.specs.Putting.{owes};
ghost use Rattle.ldc_queue.specs.Wire.{state_of as state_in};
ghost use Rattle.ldc_queue.specs.declared.end.ChannelState.TheVariants.{Up};
ghost use Rattle.ldc_queue.specs.declared.end.End.TheVariants.{B};
ghost use Rattle.vio_tag.specs.Form.{IsWellFormed};
ghost use Rattle.vio_tag.specs.Spelling.{canonical};
ghost use Rattle.lane_models.specs.ServerPutting.{answered};
ghost use Rattle.vdisk_server.specs.Answering.{SameDisk, StepsAlone, channel_after};
ghost use Rattle.vdisk_server.specs.Putting.{PutsNext, PutsRightly, noted, put_of};
ghost use Rattle.vdisk_server.specs.Rules.{owed_message, session_owes};
ghost use Rattle.vdisk_server.specs.Standing.{Stands};

use crate::answers::ServerOut;
use crate::end::ServerEnd;
use ldc_link::SendOut;
use ldc_queue::{Channel, End};
use vio_tag::{Message, encode};

/// What a packet is that is put.
#[derive(Clone, Copy)]
pub(crate) enum PutOf {
    /// One of the link's handshake.
    Control,
    /// A part of a message of the session's handshake.
    Handshake,
    /// A part of the answer to a range.
    Own,
}

impl ServerEnd {
    /// What the packet is that the link owes: a message is the handshake's where that owes one.
    pub fn next_put(&self) -> PutOf
        ensures { result ≡ put_of (is_up self.now.link) self.now.handshake.owed }
    {
        if !self.link.is_up() {
            return PutOf::Control;
        }
        if self.handshake.owes() {
            PutOf::Handshake
        } else {
            PutOf::Own
        }
    }

    /// The link owes a packet: it is put, and where it ends a message, what follows is noted.
    pub fn put(&mut self, whose: PutOf, channel: &mut Channel, out: &mut ServerOut)
        requires up { state_in B channel.old.wire ≡ Up }
        requires owes { owes self.old.link ≡ true }
        requires answers { PutsRightly self.old }
        requires whose { whose ≡ put_of (is_up self.old.link) self.old.handshake.owed }
        ensures put { PutsNext self.old channel.old out.new self.new }
        ensures channel { channel.new ≡ channel_after out.new channel.old }
        ensures disk { SameDisk self.old self.new }
    {
        match self.link.send(channel, End::B) {
            SendOut::Sent(packet) => {
                self.note_put(whose);
                *out = ServerOut::Sent {
                    packet,
                    opens: false,
                };
            }
            SendOut::Blocked => *out = ServerOut::Blocked,
            SendOut::Nothing => unreachable!(),
        }
    }

    // A packet was put. By the last part of a message that is said.
    fn note_put(&mut self, whose: PutOf)
        requires { whose ≡ PutOf.Handshake → is_some self.old.handshake.owed ≡ true }
        ensures { self.new ≡ noted whose (owes self.old.link) self.old }
    {
        if self.link.owes() {
            return;
        }
        match whose {
            PutOf::Control => {}
            PutOf::Handshake => {
                let _opens = self.handshake.sent();
            }
            PutOf::Own => self.note_answered(),
        }
    }

    fn note_answered(&mut self)
        ensures { self.new ≡ record self.old { session = answered self.old.session } }
    {
        if let Some(session) = &mut self.session {
            session.answered = session.asked;
            session.range = None;
        }
    }

    /// A message is owed, of the handshake or the answer to a range: it is said.
    pub fn say_owed(&mut self, channel: &mut Channel, out: &mut ServerOut)
        requires stands { Stands self.old }
        requires up { state_in B channel.old.wire ≡ Up }
        requires free { owes self.old.link ≡ false }
        requires owed { is_some (owed_message self.old) ≡ true }
        ensures step { StepsAlone self.old channel.old out.new self.new }
        ensures channel { channel.new ≡ channel_after out.new channel.old }
        ensures disk { SameDisk self.old self.new }
    {
        match &self.handshake.next() {
            Some(message) => self.say(PutOf::Handshake, message, channel, out),
            None => self.say_answer(channel, out),
        }
    }

    // The handshake owes none: the answer to a range is said.
    fn say_answer(&mut self, channel: &mut Channel, out: &mut ServerOut)
        requires stands { Stands self.old }
        requires up { state_in B channel.old.wire ≡ Up }
        requires free { owes self.old.link ≡ false }
        requires no_other { self.old.handshake.owed ≡ None }
        requires owed { is_some (session_owes self.old self.old.session) ≡ true }
        ensures step { StepsAlone self.old channel.old out.new self.new }
        ensures channel { channel.new ≡ channel_after out.new channel.old }
        ensures disk { SameDisk self.old self.new }
    {
        match &self.owed_answer() {
            Some(message) => self.say(PutOf::Own, message, channel, out),
            None => unreachable!(),
        }
    }

    // The message is offered, and its first packet is put.
    fn say(&mut self, whose: PutOf, message: &Message, channel: &mut Channel, out: &mut ServerOut)
        requires up { state_in B channel.old.wire ≡ Up }
        requires form { IsWellFormed message.now }
        requires link { is_up self.old.link ≡ true }
        requires free { self.old.link.to_send ≡ [] }
        requires answers { PutsRightly self.old }
        requires whose { whose ≡ put_of true self.old.handshake.owed }
        ensures put { PutsNext (record self.old { link = offered (canonical message.now) self.old.link })
            channel.old out.new self.new }
        ensures channel { channel.new ≡ channel_after out.new channel.old }
        ensures disk { SameDisk self.old self.new }
    {
        let mut bytes = [0; 256];
        let length = encode(message, &mut bytes);
        let _offered = self.link.offer(&bytes[..length]);
        self.put(whose, channel, out);
    }
}
