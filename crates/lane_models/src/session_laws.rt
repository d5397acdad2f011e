// What holds of the open sessions of two ends on a channel, of any kind of lane.

ghost use Rattle.std.specs.Prelude.{◌≡◌, ℕ, List, Option, Some, false, true};
ghost use Rattle.runs.specs.Run.{Run};
ghost use Rattle.ldc_queue.specs.Transcript.{Utterance};
ghost use Rattle.ldc_queue.specs.Wire.{peer_of};
ghost use Rattle.ldc_queue.specs.declared.end.End.TheVariants.{A, B};
ghost use Rattle.ldc_queue.specs.declared.end.End.{End};
ghost use Rattle.vio_handshake.specs.Offers.{Match};
ghost use Rattle.vio_handshake.specs.declared.session.Offer.{Offer};
ghost use Rattle.vio_tag.specs.declared.cause.Cause.{Cause};
ghost use Rattle.vio_tag.specs.declared.message.Message.{Message};
ghost use Rattle.lane_models.specs.ResetSays.{PacketSays};
ghost use Rattle.lane_models.specs.Sayings.{heard, said};
ghost use Rattle.lane_models.specs.TranscriptLog.{transcript_of};
ghost use Rattle.lane_models.specs.WireAt.{GapOf};
ghost use Rattle.lane_models.specs.EndsAtRest.{IsEndAtRest};
ghost use Rattle.lane_models.specs.KnownAttributes.{KnowAttributes};
ghost use Rattle.lane_models.specs.LaneCore.{end_of, fresh_core, role_of, transcript_behind, CoreEvent, CoreFits, CoreStep, LaneCore};
ghost use Rattle.lane_models.specs.PacketCauses.{packet_cause, Judges, JudgesRightly};

/// On a channel that nobody forged, two ends at rest whose offers match are in session, where no packet was lost since
/// the queues were last emptied. Each has heard all that the other said since it last began.
pub fn two_ends_at_rest_are_in_session()
    ensures opened { (entries : ℕ) (asks answers : Offer) (events : List CoreEvent) (s : LaneCore)
        → CoreFits entries asks answers → Match asks answers → Run CoreStep (fresh_core entries asks answers) events s
        → s.wire.forged ≡ false → s.wire.lossy ≡ false → IsEndAtRest A s → IsEndAtRest B s
        → (s.a.is_open ≡ true) × (s.b.is_open ≡ true) }
    ensures all { (entries : ℕ) (asks answers : Offer) (events : List CoreEvent) (s : LaneCore) (e : End)
        → CoreFits entries asks answers → Run CoreStep (fresh_core entries asks answers) events s
        → s.wire.forged ≡ false → s.wire.lossy ≡ false → IsEndAtRest A s → IsEndAtRest B s
        → heard (transcript_of e (transcript_behind events)) ≡ said (transcript_of (peer_of e) (transcript_behind events)) }
{}

/// On a channel that nobody forged, where both sessions are open, each end heard the other's attributes. They are those
/// that the offers say at the smaller of both minors: the initiator's, and the responder's answer to them.
pub fn open_sessions_know_each_others_attributes()
    ensures { (entries : ℕ) (asks answers : Offer) (events : List CoreEvent) (s : LaneCore)
        → CoreFits entries asks answers → Match asks answers → Run CoreStep (fresh_core entries asks answers) events s
        → s.wire.forged ≡ false → s.a.is_open ≡ true → s.b.is_open ≡ true
        → KnowAttributes asks answers s.a.handshake.draft.sid (heard (transcript_behind events).a)
        (heard (transcript_behind events).b) }
{}

/// An end on a channel whose session is open resets itself for the first cause that a packet has, and takes the packet
/// where it has none. The causes are read from the packet's bytes, from what the end heard before, and from what its
/// session makes of messages of rings and groups, which is its kind's. Where the kind's causes are as the messages say,
/// so is each cause as the packet says, and a gap names both numbers.
pub fn a_packet_resets_a_session_for_its_first_cause()
    ensures first { (entries : ℕ) (asks answers : Offer) (events : List CoreEvent) (s : LaneCore) (e : End)
        (own : Message → Option Cause) (packet : List ℕ) (answer : Option Cause)
        → CoreFits entries asks answers → Run CoreStep (fresh_core entries asks answers) events s
        → (end_of e s).is_open ≡ true → Judges own (role_of e) (end_of e s) packet answer
        → answer ≡ packet_cause own (end_of e s).handshake.draft.sid (transcript_of e (transcript_behind events)) packet }
    ensures says { (own : Message → Option Cause) (sid : ℕ) (utterances : List Utterance) (packet : List ℕ) (cause : Cause)
        → JudgesRightly own → packet_cause own sid utterances packet ≡ Some cause
        → PacketSays utterances packet cause × GapOf utterances cause (Some packet) }
{}
