// What follows from the definitions.

ghost use Rattle.std.specs.Prelude.{◌≡◌, ◌↔◌, ℕ, List, []};
ghost use Rattle.ldc_queue.specs.Fragments.{Fragment};
ghost use Rattle.ldc_queue.specs.Messages.{half_in, messages_heard, messages_said, whole_in, AllMayCome, AreCutFrom};
ghost use Rattle.ldc_queue.specs.OneStream.{IsFront, OneStream};
ghost use Rattle.ldc_queue.specs.QueueEvent.{QueueEvent};
ghost use Rattle.ldc_queue.specs.QueueLog.{after, log_of, nothing_yet, transcript_of, AllMayStand, MayStand, QueueLog};
ghost use Rattle.ldc_queue.specs.Transcript.{numbered_heard, numbered_said};
ghost use Rattle.ldc_queue.specs.Wire.{peer_of, state_of};
ghost use Rattle.ldc_queue.specs.declared.end.ChannelState.TheVariants.{Up};
ghost use Rattle.ldc_queue.specs.declared.end.End.{End};

/// Along every list of queue events that may stand, each direction of the channel is one stream. So what an end that
/// is up has heard since it was configured is a front of what the other end said since its own. That is so of numbered
/// packets, and of messages.
pub fn heard_is_a_front_of_said()
    ensures begins { OneStream nothing_yet }
    ensures kept { (l : QueueLog) (event : QueueEvent) → MayStand l event → OneStream l → OneStream (after l event) }
    ensures holds { (events : List QueueEvent) → AllMayStand nothing_yet events → OneStream (log_of nothing_yet events) }

    ensures packets { (l : QueueLog) (e : End) → OneStream l → state_of e l.wire ≡ Up
        → IsFront (numbered_heard (transcript_of e l)) (numbered_said (transcript_of (peer_of e) l)) }
    ensures messages { (l : QueueLog) (e : End) → OneStream l → state_of e l.wire ≡ Up
        → IsFront (messages_heard (transcript_of e l)) (messages_said (transcript_of (peer_of e) l)) }
{}

/// Parts are those of messages, one after the other, and the first ones of one more, exactly where each may come and
/// these are the messages that they make. A part may come with START exactly where nothing of a message has come.
pub fn messages_are_cut_into_parts()
    ensures { (fragments : List Fragment) (messages : List (List ℕ)) (half : List ℕ) → (AreCutFrom fragments messages half)
        ↔ (AllMayCome [] fragments × (whole_in [] fragments ≡ messages) × (half_in [] fragments ≡ half)) }
{}
