// What the messages of a session do to the frames of an end.

ghost use Rattle.std.specs.Prelude.{◌≡◌, List, None, Some, ℕ};
ghost use Rattle.ldc_link.specs.declared.phase.Role.{Role};
ghost use Rattle.vio_tag.specs.declared.message.Message.{Message};
ghost use Rattle.vio_tag.specs.Form.{IsWellFormed};
ghost use Rattle.vio_tag.specs.Spelling.{SpellsMessage};
ghost use Rattle.lane_models.specs.EndLog.{acked_by};
ghost use Rattle.lane_models.specs.NetEndState.{NetEndState, NetSession};
ghost use Rattle.lane_models.specs.NetEndTaking.{hears_message};
ghost use Rattle.lane_models.specs.Spoken.{spoken};
ghost use Rattle.port_laws.specs.LetsGo.{acks, SessionInOrder, TakeLetsGo, TakeLetsNoneGo};

/// A message that an end takes in session, and doesn't reset itself for, lets exactly those frames go that it
/// acknowledges. That is so where it is an ACK of the ring, and else it lets none go; the session and the ids stay.
/// Without a session no frame leaves, and one that opens begins with the first frame that is held. What a message
/// acknowledges is the same by its fields and by its bytes, as the log counts it.
pub fn an_ack_alone_lets_frames_go()
    ensures in_session { (role : Role) (s : NetEndState) (p : NetSession) (memory : List ℕ) (message : Message) → SessionInOrder s p
        → TakeLetsGo s p (acks s.slots message.body message.subtype) (hears_message role s memory (Some p) message) }
    ensures without { (role : Role) (s : NetEndState) (memory : List ℕ) (message : Message) → s.session ≡ None
        → TakeLetsNoneGo s (hears_message role s memory None message) }
    ensures by_bytes { (slots : ℕ) (bytes : List ℕ) (message : Message) → IsWellFormed message → SpellsMessage bytes message
        → acked_by slots (spoken bytes) bytes ≡ acks slots message.body message.subtype }
{}
