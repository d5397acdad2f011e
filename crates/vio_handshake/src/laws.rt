// What follows from the definitions.

ghost use Rattle.std.specs.Prelude.{◌≡◌, ◌≤◌, ◌⊎◌, None, Some, true, false, List, length, min};
ghost use Rattle.ldc_link.specs.declared.phase.Role.TheVariants.{Initiator, Responder};
ghost use Rattle.runs.specs.Run.{Run};
ghost use Rattle.vio_handshake.specs.Offers.{Match};
ghost use Rattle.vio_handshake.specs.Pairing.{Act, Agreed, AreHeard, AtRest, Pair, PairStep, SayOfMinor, met};
ghost use Rattle.vio_handshake.specs.Rules.{Goes, GoesOpen, opens_by_put, handshake_sent, handshake_take, taken};
ghost use Rattle.vio_handshake.specs.State.{IsFault, OwesWell, forgotten_handshake, fresh_handshake, joined_handshake, next_sid, session_of, handshake_up};
ghost use Rattle.vio_handshake.specs.declared.session.HsOut.{HsOut};
ghost use Rattle.vio_handshake.specs.declared.session.Offer.{Offer};
ghost use Rattle.vio_tag.specs.Form.{AreCookies, IsWellFormed};
ghost use Rattle.vio_tag.specs.declared.message.Message.{Message};
ghost use Rattle.ldc_link.specs.declared.phase.Role.{Role};
ghost use Rattle.vio_handshake.specs.declared.handshake.Handshake.{Handshake};

/// Two handshakes whose offers match, and whose links just came up, are given each other's messages, in any
/// interleaving of their steps. No message is a fault. And once neither end owes a message and none is on the way, both
/// are open in one session and agree on it. That session is the initiator's next. Until then one of them can act, and
/// each of the at most 12 messages is put and taken once.
pub fn handshakes_agree()
    ensures heard { (initiator responder : Handshake) (acts : List Act) (pair : Pair)
        → initiator.role ≡ Initiator → responder.role ≡ Responder → Match initiator.offer responder.offer
        → Run PairStep (met initiator responder) acts pair → AreHeard acts }
    ensures agreed { (initiator responder : Handshake) (acts : List Act) (pair : Pair)
        → initiator.role ≡ Initiator → responder.role ≡ Responder → Match initiator.offer responder.offer
        → Run PairStep (met initiator responder) acts pair → AtRest pair
        → Agreed (next_sid initiator) initiator.offer responder.offer pair }
    ensures goes_on { (initiator responder : Handshake) (acts : List Act) (pair : Pair)
        → initiator.role ≡ Initiator → responder.role ≡ Responder → Match initiator.offer responder.offer
        → Run PairStep (met initiator responder) acts pair → AtRest pair ⊎ ((act : Act) × (next : Pair) × PairStep pair act next) }
    ensures soon_over { (initiator responder : Handshake) (acts : List Act) (pair : Pair)
        → initiator.role ≡ Initiator → responder.role ≡ Responder → Match initiator.offer responder.offer
        → Run PairStep (met initiator responder) acts pair → length acts ≤ 24 }
{}

/// Two handshakes whose offers match say the attributes of a session of the smaller minor, in any interleaving of their
/// steps. Neither says of the device what came with a later version, whatever its own is.
pub fn attributes_are_of_the_smaller_minor()
    ensures { (initiator responder : Handshake) (acts : List Act) (pair : Pair)
        → initiator.role ≡ Initiator → responder.role ≡ Responder → Match initiator.offer responder.offer
        → Run PairStep (met initiator responder) acts pair
        → SayOfMinor (min initiator.offer.minor responder.offer.minor) initiator.offer responder.offer pair }
{}

/// What a handshake owes can be encoded, where its offer has at most 14 cookies and none after them, and the messages
/// that it took were decoded.
pub fn what_is_owed_is_well_formed()
    ensures begins { (role : Role) (offer : Offer) → AreCookies offer.count offer.cookies → OwesWell (fresh_handshake role offer) }
    ensures link_up { (s : Handshake) → OwesWell s → OwesWell (handshake_up s) }
    ensures takes { (answer : HsOut) (s t : Handshake) (message : Message) → OwesWell s → IsWellFormed message
        → taken answer t ≡ handshake_take s message → (IsFault answer → t ≡ s) → OwesWell t }
    ensures sent { (s : Handshake) → OwesWell s → OwesWell (handshake_sent s) }
    ensures drop_session { (s : Handshake) → OwesWell s → OwesWell (joined_handshake s) }
    ensures forget { (s : Handshake) → OwesWell s → OwesWell (forgotten_handshake s) }
{}

/// A session opens exactly where `take` answers `Opens` or `sent` answers true, and stays open after each other answer.
pub fn opens_where_it_is_told()
    ensures sent_opens { (s : Handshake) → opens_by_put s.role s.phase ≡ true → (session_of s ≡ None) × (session_of (handshake_sent s) ≡ Some s.draft) }
    ensures sent_stays { (s : Handshake) → opens_by_put s.role s.phase ≡ false → session_of (handshake_sent s) ≡ session_of s }
    ensures take_opens { (s t : Handshake) (message : Message) → handshake_take s message ≡ GoesOpen t → (session_of s ≡ None) × (session_of t ≡ Some t.draft) }
    ensures take_stays { (s t : Handshake) (message : Message) → handshake_take s message ≡ Goes t → session_of t ≡ session_of s }
{}
