// What follows from the definitions.

ghost use Rattle.std.specs.Prelude.{◌≡◌, List};
ghost use Rattle.ldc_queue.specs.Messages as in_order;
ghost use Rattle.ldc_queue.specs.Transcript.{Utterance};
ghost use Rattle.lane_models.specs.Sayings.{half_heard, half_said, heard, said};

/// What a transcript comes to utterance by utterance, newest first, is what its numbered packets make in their order. These are
/// the messages that are whole, and what came of one more. So the law of a channel, that what an end heard is a front
/// of what the other said, speaks of these.
pub fn transcripts_count_messages()
    ensures said { (utterances : List Utterance) → said utterances ≡ in_order.messages_said utterances }
    ensures heard { (utterances : List Utterance) → heard utterances ≡ in_order.messages_heard utterances }
    ensures half_said { (utterances : List Utterance) → half_said utterances ≡ in_order.unfinished_said utterances }
    ensures half_heard { (utterances : List Utterance) → half_heard utterances ≡ in_order.unfinished_heard utterances }
{}
