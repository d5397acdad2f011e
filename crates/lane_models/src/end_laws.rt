// What always holds of an end by its role, whatever its kind of lane, also where somebody forges packets.

ghost use Rattle.std.specs.Prelude.{◌≡◌, ◌%◌, ◌∷◌, ℕ, List, Option, true};
ghost use Rattle.runs.specs.Lawful.{log_of, Lawful};
ghost use Rattle.runs.specs.Run.{Run};
ghost use Rattle.ldc_link.specs.declared.phase.Role.TheVariants.{Initiator, Responder};
ghost use Rattle.ldc_queue.specs.Transcript.{Heard, Said};
ghost use Rattle.ldc_queue.specs.declared.end.End.{End};
ghost use Rattle.vio_handshake.specs.declared.session.Offer.{Offer};
ghost use Rattle.vio_tag.specs.declared.cause.Cause.{Cause};
ghost use Rattle.lane_models.specs.HandshakeOrder.{HandshakeOrder, sid_count};
ghost use Rattle.lane_models.specs.Sayings.{heard, said};
ghost use Rattle.lane_models.specs.TranscriptLog.{transcript_of};
ghost use Rattle.lane_models.specs.WireEvent.{ByStep, Reset, Sent, Took, giver};
ghost use Rattle.lane_models.specs.CoreLog.{after, comings_after, nothing_yet, HeardAt, SaidAt};
ghost use Rattle.lane_models.specs.Grounds.{OpenRests, RestsOn};
ghost use Rattle.lane_models.specs.LaneCore.{end_of, fresh_core, role_of, transcript_behind, CoreEvent, CoreFits, CoreStep, LaneCore, OnChannel};
ghost use Rattle.lane_models.specs.Resetting.{ResetsFor};
ghost use Rattle.lane_models.specs.Standing.{EndStands};
ghost use Rattle.lane_models.specs.Utterances.{SaysEach};

/// Along every run of two ends on a channel each stands by its role. Its link is in a phase of the role, follows what
/// the end said and heard since it last began, and has shown each whole message. Its handshake offers what the end
/// does, and that stays; the session is open exactly where the handshake is. Before its link is up it holds and owes
/// nothing. And what the link holds is the rest of the message that the handshake owes, or of one of the open session.
pub fn an_end_stands_by_its_role()
    ensures initiator { (entries : ℕ) (asks answers : Offer) (events : List CoreEvent) (s : LaneCore)
        → CoreFits entries asks answers → Run CoreStep (fresh_core entries asks answers) events s
        → EndStands Initiator s.a (transcript_behind events).a }
    ensures responder { (entries : ℕ) (asks answers : Offer) (events : List CoreEvent) (s : LaneCore)
        → CoreFits entries asks answers → Run CoreStep (fresh_core entries asks answers) events s
        → EndStands Responder s.b (transcript_behind events).b }
    ensures offers { (entries : ℕ) (asks answers : Offer) (events : List CoreEvent) (s : LaneCore)
        → Run CoreStep (fresh_core entries asks answers) events s → (s.a.offer ≡ asks) × (s.b.offer ≡ answers) }
{}

/// Along every run of two ends on a channel what an end's handshake knows is of messages that the end heard since it
/// last began. These are the version, the agreement to its own ring and the registration of the other's. Each is there
/// as far as the handshake has come, and all where the session is open. All have the session's sid.
pub fn an_end_rests_on_what_it_heard()
    ensures initiator { (entries : ℕ) (asks answers : Offer) (events : List CoreEvent) (s : LaneCore)
        → CoreFits entries asks answers → Run CoreStep (fresh_core entries asks answers) events s
        → RestsOn Initiator s.a.handshake (heard (transcript_behind events).a) }
    ensures responder { (entries : ℕ) (asks answers : Offer) (events : List CoreEvent) (s : LaneCore)
        → CoreFits entries asks answers → Run CoreStep (fresh_core entries asks answers) events s
        → RestsOn Responder s.b.handshake (heard (transcript_behind events).b) }
    ensures initiator_open { (entries : ℕ) (asks answers : Offer) (events : List CoreEvent) (s : LaneCore)
        → CoreFits entries asks answers → Run CoreStep (fresh_core entries asks answers) events s
        → s.a.is_open ≡ true → OpenRests Initiator s.a.handshake (heard (transcript_behind events).a) }
    ensures responder_open { (entries : ℕ) (asks answers : Offer) (events : List CoreEvent) (s : LaneCore)
        → CoreFits entries asks answers → Run CoreStep (fresh_core entries asks answers) events s
        → s.b.is_open ≡ true → OpenRests Responder s.b.handshake (heard (transcript_behind events).b) }
{}

/// Along every run of two ends on a channel each message that an end said since it last began is as its handshake has
/// it. An initiator's have its sid and offer its version, a responder's agree to the version that it holds. Each
/// registers its ring as it offers it, and agrees to the other's by the number that it holds.
pub fn an_end_says_what_its_handshake_holds()
    ensures { (entries : ℕ) (asks answers : Offer) (events : List CoreEvent) (s : LaneCore) (e : End)
        → CoreFits entries asks answers → Run CoreStep (fresh_core entries asks answers) events s
        → SaysEach (role_of e) (end_of e s).handshake.phase (end_of e s).handshake.offer (end_of e s).handshake.draft
        (said (transcript_of e (transcript_behind events))) }
{}

/// Along every run of two ends on a channel each packet that an end puts is the canonical spelling of a packet. Where
/// it has a number, it is one more than how many with numbers the end put before. A part of a message has START exactly
/// where nothing of one was put, 56 bytes where another part follows, and makes no message above 256 bytes.
pub fn what_an_end_says_is_cut_and_numbered()
    ensures { (entries : ℕ) (asks answers : Offer) (events : List CoreEvent) (s : LaneCore)
        → CoreFits entries asks answers → Run CoreStep (fresh_core entries asks answers) events s
        → Lawful SaidAt after (nothing_yet entries) events }
{}

/// Along every run of two ends on a channel each packet that an end takes and doesn't reset itself for is 64 bytes that
/// spell a packet. Where it has a number, it is one more than how many with numbers the end heard before. And a part of
/// a message has START exactly where nothing of a message had come, and makes no message above 256 bytes.
pub fn what_an_end_hears_may_come()
    ensures { (entries : ℕ) (asks answers : Offer) (events : List CoreEvent) (s : LaneCore)
        → CoreFits entries asks answers → Run CoreStep (fresh_core entries asks answers) events s
        → Lawful HeardAt after (nothing_yet entries) events }
{}

/// Let the session of an end on a channel open, by a message that it says or hears. What the end said and heard since
/// it last began is then the row of its handshake, one line after the other. Between them stands only what may stand
/// aside. Where both ends have a ring the row has the messages of the responder's too. All messages of the row have one
/// sid.
pub fn sessions_of_an_end_open_in_order()
    ensures saying { (entries : ℕ) (asks answers : Offer) (events : List CoreEvent) (s : LaneCore) (e : End)
        (packet : List ℕ) (t : LaneCore)
        → CoreFits entries asks answers → Run CoreStep (fresh_core entries asks answers) events s
        → CoreStep s (OnChannel (Sent e packet true)) t
        → HandshakeOrder (end_of e s).offer.both_rings (role_of e) (Said packet ∷ transcript_of e (transcript_behind events)) }
    ensures hearing { (entries : ℕ) (asks answers : Offer) (events : List CoreEvent) (s : LaneCore) (e : End)
        (packet : List ℕ) (t : LaneCore)
        → CoreFits entries asks answers → Run CoreStep (fresh_core entries asks answers) events s
        → CoreStep s (OnChannel (Took e packet true)) t
        → HandshakeOrder (end_of e s).offer.both_rings (role_of e) (Heard packet ∷ transcript_of e (transcript_behind events)) }
{}

/// Where an end on a channel resets itself, the packet that it carries says why, by its own bytes or by those of the
/// message that it ends. A gap names the number that was to come and the one that came. Or the end's session is open,
/// and the cause lies in a message of that which the packet ends, or in no packet.
pub fn a_reset_of_an_end_says_why()
    ensures { (entries : ℕ) (asks answers : Offer) (events : List CoreEvent) (s : LaneCore) (e : End) (cause : Cause)
        (packet : Option (List ℕ)) (lost : ℕ) (t : LaneCore)
        → CoreFits entries asks answers → Run CoreStep (fresh_core entries asks answers) events s
        → giver cause ≡ ByStep → CoreStep s (OnChannel (Reset e cause packet lost)) t
        → ResetsFor (end_of e s) (transcript_of e (transcript_behind events)) cause packet }
{}

/// Along every run of two ends on a channel the initiator's last sid is how often its link came up, modulo 2^32. It is
/// so too where it was reset, made new or closed since. A responder counts none.
pub fn sids_count_how_often_a_link_came_up()
    ensures counts { (entries : ℕ) (asks answers : Offer) (events : List CoreEvent) (s : LaneCore)
        → CoreFits entries asks answers → Run CoreStep (fresh_core entries asks answers) events s
        → s.a.handshake.last_sid ≡ log_of comings_after 0 events % sid_count }
    ensures none { (entries : ℕ) (asks answers : Offer) (events : List CoreEvent) (s : LaneCore)
        → CoreFits entries asks answers → Run CoreStep (fresh_core entries asks answers) events s
        → s.b.handshake.last_sid ≡ 0 }
{}
