// What follows from the definitions.

ghost use Rattle.std.specs.Prelude.{◌≡◌, ◌↔◌, ◌≤◌, ◌+◌, ℕ, true, List, [], ◌∷◌, length};
ghost use Rattle.ldc_packet.specs.declared.packet.Packet.{Packet};
ghost use Rattle.ldc_queue.specs.Fragments.{fragments_in, FragmentsOf};
ghost use Rattle.ldc_queue.specs.Messages.{AllMayCome, AreCutFrom};
ghost use Rattle.ldc_queue.specs.Numbered.{numbered, CountUp};
ghost use Rattle.ldc_queue.specs.Transcript.{numbered_heard, numbered_said, Utterance};
ghost use Rattle.ldc_queue.specs.Transcript as utterance;
ghost use Rattle.ldc_link.specs.Calls.{Puts};
ghost use Rattle.ldc_link.specs.Conversing.{carried, AreData, AreFull, AreNumbered, Hears, PutsAll};
ghost use Rattle.ldc_link.specs.Following.{Follows};
ghost use Rattle.ldc_link.specs.LinkState.{cleared, is_up, joined_link, offered, LinkState};
ghost use Rattle.ldc_link.specs.Taking.{Heard, TakesBytes};

/// A link that is up hears messages exactly where the data packets that it takes are their fragments, and those of
/// the front of one more, with the next numbers. The packets come one after the other, and the link has heard
/// nothing of a message before.
pub fn messages_are_heard_by_their_fragments()
    ensures { (k : LinkState) (packets : List Packet) (messages : List (List ℕ)) (half : List ℕ) → is_up k ≡ true → k.half_heard ≡ [] → AreData packets
        → ((t : LinkState) × Hears k packets messages t × (t.half_heard ≡ half))
        ↔ (AreNumbered k.take_next packets × AreCutFrom (carried packets) messages half) }
{}

/// A link that is up puts an offered message as its fragments, with the next numbers, all but the last of 56 bytes, and can put it
/// whole.
pub fn messages_are_said_as_their_fragments()
    ensures fragments { (k : LinkState) (message : List ℕ) (packets : List Packet) (t : LinkState) → is_up k ≡ true
        → 1 ≤ length message → length message ≤ 256 → PutsAll (offered message k) packets t → t.to_send ≡ []
        → AreData packets × AreNumbered k.put_next packets × FragmentsOf message (carried packets) × AreFull (carried packets) }
    ensures whole { (k : LinkState) (message : List ℕ) → is_up k ≡ true → 1 ≤ length message
        → (packets : List Packet) × (t : LinkState) × PutsAll (offered message k) packets t × (t.to_send ≡ []) }
{}

/// A link follows what its end said and heard since it joined: so what it puts and what it takes counts up from 1.
/// That is what the law asks by which what an end has heard is a front of what the other end said. An offer and a
/// message that was seen change nothing of it, and each part that it takes is one that may come after those that it
/// took.
pub fn links_follow_what_their_ends_say()
    ensures joins { (k : LinkState) → Follows (joined_link k) [] }
    ensures puts { (k : LinkState) (utterances : List Utterance) (bytes : List ℕ) (m : LinkState) → Follows k utterances → Puts k bytes m
        → CountUp (length (numbered_said utterances) + 1) (numbered (bytes ∷ [])) × Follows m (utterance.Said bytes ∷ utterances) }
    ensures takes { (k : LinkState) (utterances : List Utterance) (bytes : List ℕ) (m : LinkState) → Follows k utterances → TakesBytes k bytes (Heard m)
        → CountUp (length (numbered_heard utterances) + 1) (numbered (bytes ∷ [])) × Follows m (utterance.Heard bytes ∷ utterances) }
    ensures comes { (k : LinkState) (utterances : List Utterance) (bytes : List ℕ) (m : LinkState) → Follows k utterances
        → AllMayCome [] (fragments_in (numbered_heard utterances)) → TakesBytes k bytes (Heard m)
        → AllMayCome [] (fragments_in (numbered_heard (utterance.Heard bytes ∷ utterances))) }
    ensures offers { (k : LinkState) (utterances : List Utterance) (message : List ℕ) → Follows k utterances
        → Follows (offered message k) utterances }
    ensures clears { (k : LinkState) (utterances : List Utterance) → Follows k utterances → Follows (cleared k) utterances }
{}
