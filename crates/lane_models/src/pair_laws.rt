// What holds of two ends on a channel, of any kind of lane, where nobody forged.

ghost use Rattle.std.specs.Prelude.{◌≡◌, ◌⊎◌, ℕ, List, [], Option, false, true};
ghost use Rattle.runs.specs.Lawful.{log_of, Lawful};
ghost use Rattle.runs.specs.Run.{Run};
ghost use Rattle.ldc_link.specs.declared.phase.Role.TheVariants.{Initiator};
ghost use Rattle.ldc_queue.specs.OneStream.{IsFront};
ghost use Rattle.ldc_queue.specs.Transcript.{numbered_heard, numbered_said};
ghost use Rattle.ldc_queue.specs.Wire.{peer_of, waiting_for};
ghost use Rattle.ldc_queue.specs.declared.end.End.TheVariants.{A, B};
ghost use Rattle.ldc_queue.specs.declared.end.End.{End};
ghost use Rattle.vio_handshake.specs.Offers.{Match};
ghost use Rattle.vio_handshake.specs.declared.session.Offer.{Offer};
ghost use Rattle.vio_tag.specs.declared.cause.Cause.{Cause};
ghost use Rattle.lane_models.specs.Sayings.{heard, said};
ghost use Rattle.lane_models.specs.TranscriptLog.{transcript_of};
ghost use Rattle.lane_models.specs.WireAt.{IsOwnReset, IsUp};
ghost use Rattle.lane_models.specs.WireEvent.{ByStep, Reset, giver};
ghost use Rattle.lane_models.specs.Conversing.{Converse};
ghost use Rattle.lane_models.specs.CoreLog.{after, nothing_yet, CoreLog, RoomStands, TableAt, UpStands};
ghost use Rattle.lane_models.specs.LaneCore.{end_of, fresh_core, role_of, transcript_behind, CoreEvent, CoreFits, CoreStep, LaneCore, OnChannel};
ghost use Rattle.lane_models.specs.LinkPlaces.{LinksAt};
ghost use Rattle.lane_models.specs.LossStands.{Empties, LossStands};
ghost use Rattle.lane_models.specs.OneSession.{AreOneSession};
ghost use Rattle.lane_models.specs.Resetting.{LiesInSession};
ghost use Rattle.lane_models.specs.Sides.{sides_of};
ghost use Rattle.lane_models.specs.Utterances.{SaysEach};

/// On a channel that nobody forged, whatever was lost, reset or closed: each direction is one stream. Of it fewer
/// packets with numbers than 2^32 are lost between two that an end takes. So what an end that is up has heard is a
/// front of what the other end has said, each since it last began. It is so packet by packet of those with numbers, and
/// message by message.
pub fn two_ends_converse()
    ensures streams { (entries : ℕ) (asks answers : Offer) (events : List CoreEvent) (s : LaneCore)
        → CoreFits entries asks answers → Run CoreStep (fresh_core entries asks answers) events s
        → s.wire.forged ≡ false → Converse Initiator (sides_of s (transcript_behind events)) }
    ensures packets { (entries : ℕ) (asks answers : Offer) (events : List CoreEvent) (s : LaneCore) (e : End)
        → CoreFits entries asks answers → Run CoreStep (fresh_core entries asks answers) events s
        → s.wire.forged ≡ false → IsUp e s.wire.wire
        → IsFront (numbered_heard (transcript_of e (transcript_behind events)))
        (numbered_said (transcript_of (peer_of e) (transcript_behind events))) }
    ensures messages { (entries : ℕ) (asks answers : Offer) (events : List CoreEvent) (s : LaneCore) (e : End)
        → CoreFits entries asks answers → Run CoreStep (fresh_core entries asks answers) events s
        → s.wire.forged ≡ false → IsUp e s.wire.wire
        → IsFront (heard (transcript_of e (transcript_behind events))) (said (transcript_of (peer_of e) (transcript_behind events))) }
{}

/// On a channel that nobody forged, each message that an end that is up has heard since it last began is as the other
/// end's handshake has it now.
pub fn what_an_end_heard_is_as_the_other_has_it()
    ensures { (entries : ℕ) (asks answers : Offer) (events : List CoreEvent) (s : LaneCore) (e : End)
        → CoreFits entries asks answers → Run CoreStep (fresh_core entries asks answers) events s
        → s.wire.forged ≡ false → IsUp e s.wire.wire
        → SaysEach (role_of (peer_of e)) (end_of (peer_of e) s).handshake.phase
        (end_of (peer_of e) s).handshake.offer (end_of (peer_of e) s).handshake.draft
        (heard (transcript_of e (transcript_behind events))) }
{}

/// On a channel that nobody forged both links stand at one place of their own handshake. It gives their phases, the
/// packet without a number that may wait for one of them, and what was said and heard of packets with numbers. An end
/// that isn't up counts as one that begins.
pub fn links_stand_at_one_place()
    ensures { (entries : ℕ) (asks answers : Offer) (events : List CoreEvent) (s : LaneCore)
        → CoreFits entries asks answers → Run CoreStep (fresh_core entries asks answers) events s
        → s.wire.forged ≡ false → LinksAt Initiator (sides_of s (transcript_behind events)) }
{}

/// On a channel that nobody forged, where the sessions of both ends are open both ends are up. And where their offers
/// match, the sessions are one, with one ring or with rings both ways.
pub fn open_sessions_of_both_ends_are_one()
    ensures up { (entries : ℕ) (asks answers : Offer) (events : List CoreEvent) (s : LaneCore)
        → CoreFits entries asks answers → Run CoreStep (fresh_core entries asks answers) events s
        → s.wire.forged ≡ false → s.a.is_open ≡ true → s.b.is_open ≡ true
        → IsUp A s.wire.wire × IsUp B s.wire.wire }
    ensures one { (entries : ℕ) (asks answers : Offer) (events : List CoreEvent) (s : LaneCore)
        → CoreFits entries asks answers → Match asks answers
        → Run CoreStep (fresh_core entries asks answers) events s
        → s.wire.forged ≡ false → s.a.is_open ≡ true → s.b.is_open ≡ true
        → AreOneSession s.a.handshake s.b.handshake }
{}

/// On a channel that nobody forged, between ends whose offers match, an end resets itself for a gap, and only once a
/// packet was lost. Or for a cause of its open session, which lies in a message that the packet ends or in no packet.
pub fn an_end_resets_itself_behind_a_loss_or_for_its_session()
    ensures { (entries : ℕ) (asks answers : Offer) (events : List CoreEvent) (s : LaneCore) (e : End) (cause : Cause)
        (packet : Option (List ℕ)) (lost : ℕ) (t : LaneCore)
        → CoreFits entries asks answers → Match asks answers
        → Run CoreStep (fresh_core entries asks answers) events s
        → s.wire.forged ≡ false → giver cause ≡ ByStep → CoreStep s (OnChannel (Reset e cause packet lost)) t
        → IsOwnReset s.wire cause ⊎ LiesInSession (end_of e s) packet }
{}

/// Along every run of two ends on a channel, forged or not: each event stands where the states of the ends and what
/// waits for them let it. An end is idle only where nothing waits for it, and what changes nothing is said exactly where
/// it is so. A packet finds no room only where the queue holds all that it can. Each queue holds fewer packets than it
/// has entries; the wire is as the events say; never do both ends wait to begin anew. And the session of an end that was
/// never configured, or is closed, isn't open.
pub fn events_stand_by_both_ends()
    ensures table { (entries : ℕ) (asks answers : Offer) (events : List CoreEvent) (s : LaneCore)
        → CoreFits entries asks answers → Run CoreStep (fresh_core entries asks answers) events s
        → Lawful TableAt after (nothing_yet entries) events }
    ensures room { (entries : ℕ) (asks answers : Offer) (events : List CoreEvent) (s : LaneCore)
        → CoreFits entries asks answers → Run CoreStep (fresh_core entries asks answers) events s
        → RoomStands (log_of after (nothing_yet entries) events) }
    ensures wire { (entries : ℕ) (asks answers : Offer) (events : List CoreEvent) (s : LaneCore)
        → CoreFits entries asks answers → Run CoreStep (fresh_core entries asks answers) events s
        → s.wire ≡ (log_of after (nothing_yet entries) events).wire }
    ensures up { (entries : ℕ) (asks answers : Offer) (events : List CoreEvent) (s : LaneCore)
        → CoreFits entries asks answers → Run CoreStep (fresh_core entries asks answers) events s → UpStands s }
{}

/// Along every run of two ends on a channel, forged or not, the wire is lossy exactly where a packet was lost behind
/// the last event that emptied the queues. Such an event begins an end anew that was up, or closes one. Behind it
/// nothing waits for either end.
pub fn a_wire_is_lossy_behind_a_loss()
    ensures lossy { (entries : ℕ) (asks answers : Offer) (events : List CoreEvent) (s : LaneCore)
        → CoreFits entries asks answers → Run CoreStep (fresh_core entries asks answers) events s
        → s.wire.lossy ≡ true → LossStands entries events }
    ensures lost { (entries : ℕ) (asks answers : Offer) (events : List CoreEvent) (s : LaneCore)
        → CoreFits entries asks answers → Run CoreStep (fresh_core entries asks answers) events s
        → LossStands entries events → s.wire.lossy ≡ true }
    ensures emptied { (l : CoreLog) (event : CoreEvent) (e : End) → Empties l event
        → waiting_for e (after l event).wire.wire ≡ [] }
{}
