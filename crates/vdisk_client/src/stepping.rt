// A step: the first rule that applies.

ghost use Rattle.std.specs.Prelude.{◌≡◌, ◌<◌, length, is_some, IfNone, IfSome, Some};

use crate::answers::ClientOut;
use crate::end::ClientEnd;
use crate::session::OpenSession;
use dom_memory::Memory;
use ldc_queue::{Channel, ChannelState, End};

impl ClientEnd {
    ghost use Rattle.lane_models.specs.ClientRule.{ClientRule, Completes, completes_first, is_urgent};
    ghost use Rattle.vdisk_client.specs.Calls.{Steps};
    ghost use Rattle.disk_requests.specs.Room.{HoldsRing};
    ghost use Rattle.vdisk_client.specs.Standing.{Stands};

    /// An end that isn't up joins; an acknowledged request is completed; what is urgent is put; a packet that waits is
    /// taken. And then the rest is put, published and announced. Each rule writes its answer into the caller's, once.
    pub(crate) fn step(&mut self, channel: &mut Channel, memory: &mut Memory, out: &mut ClientOut)
        requires stands { Stands self.old }
        requires room { HoldsRing self.old.slots memory.old }
        ensures step { Steps self.old channel.old memory.old out.new self.new channel.new memory.new }
        ensures same_length { length memory.new ≡ length memory.old }
    {
        if channel.state(End::A) != ChannelState::Up {
            self.join(channel);
            *out = ClientOut::Joined;
            return;
        }
        if let Some(session) = self.acknowledged() {
            return self.complete(session, channel, memory, out);
        }
        let owes_message = self.owes_message();
        if !self.is_urgent(owes_message) && channel.waiting(End::A) > 0 {
            return self.take(channel, out);
        }
        self.put_first(owes_message, channel, memory, out);
    }

    /// The session, where an acknowledged request isn't done.
    fn acknowledged(&self) -> Option<OpenSession>
        ensures some { IfSome result
            (λ session. (self.now.session ≡ Some session) × (session.completed < session.acked)) }
        ensures completes { IfSome result
            (λ session. (otherwise : ClientRule) → completes_first self.now.session otherwise ≡ Completes session) }
        ensures none { IfNone result
            ((otherwise : ClientRule) → completes_first self.now.session otherwise ≡ otherwise) }
    {
        match self.session {
            Some(session) if session.has_acknowledged() => Some(session),
            _ => None,
        }
    }

    /// Whether the handshake owes a message. A message is long, so it is fetched only where it is said.
    fn owes_message(&self) -> bool
        ensures { result ≡ is_some self.now.handshake.owed }
    {
        self.handshake.owes()
    }

    /// What goes before taking: a packet of the link's handshake, all of the handshake of the session, and in session
    /// a refusal, which is owed until it is put whole.
    fn is_urgent(&self, owes_message: bool) -> bool
        requires { owes_message ≡ is_some self.now.handshake.owed }
        ensures { result ≡ is_urgent self.now }
    {
        self.link.owes_control() || owes_message || (self.session.is_none() && self.link.owes())
    }
}
