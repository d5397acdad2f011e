// What follows from what always holds of a lane, for the log of its events.

ghost use Rattle.std.specs.Prelude.{◌≡◌, ◌≤◌, ◌<◌, ◌⊎◌, ℕ, false, List, ◌∷◌, ◌++◌, Option};
ghost use Rattle.runs.specs.Lawful.{log_of, Lawful};
ghost use Rattle.runs.specs.Run.{Run};
ghost use Rattle.ldc_queue.specs.declared.end.End.{End};
ghost use Rattle.vio_tag.specs.declared.cause.Cause.{Cause};
ghost use Rattle.lane_models.specs.WireAt.{IsOwnReset};
ghost use Rattle.ldc_queue.specs.Wire.{peer_of};
ghost use Rattle.lane_models.specs.WireEvent.{ByStep, Idle, Reset, giver};
ghost use Rattle.lane_laws.specs.Agreement.{AgreesWithLog};
ghost use Rattle.lane_laws.specs.DiskLog.{DiskLog, after, nothing_yet};
ghost use Rattle.lane_laws.specs.May.{IsLawful};
ghost use Rattle.lane_laws.specs.OrderLaws.{OrderAt};
ghost use Rattle.lane_laws.specs.QuietLaws.{IdleAt, TwoIdleAt};
ghost use Rattle.lane_laws.specs.WorkLaws.{OpeningsAt, PiecesAt, RangesAt, WorkNumbersAt, WorkResetAt};
ghost use Rattle.lane_laws.specs.WorkLaws.{WorkUnforgedAt, WorksAt};
ghost use Rattle.lane_models.specs.DiskEvent.{DiskEvent, OnWire, Worked, Works};
ghost use Rattle.lane_models.specs.LaneState.{fresh, IsShape, LaneState, Shape};
ghost use Rattle.lane_models.specs.LaneStep.{LaneStep};
ghost use Rattle.lane_laws.specs.Remaining.{remaining};
ghost use Rattle.lane_laws.specs.SameEnds.{SameLane};
ghost use Rattle.lane_laws.specs.CalmEnds.{AreStill, HaveFinished, IsCalm, IsStep, StepKeeps};
ghost use Rattle.lane_laws.specs.Laws.{GapAt, LostAt, ResetAt, SaidAt, UnforgedAt};
ghost use Rattle.lane_laws.specs.NewSessions.{EndsSessions, OpensAmong, WorkOf};

/// Along every run of a lane, forged or not: the packet that a reset carries says why, by its own bytes or by those of
/// the message that it ends. A reset without a packet has a cause that lies in none. A gap names the number that was to
/// come, one more than how many with numbers the end heard, and that of the packet, which is another.
pub fn resets_say_why()
    ensures says { (shape : Shape) (events : List DiskEvent) (s : LaneState)
        → IsShape shape → Run LaneStep (fresh shape) events s
        → Lawful ResetAt after (nothing_yet shape) events }
    ensures gap { (shape : Shape) (events : List DiskEvent) (s : LaneState)
        → IsShape shape → Run LaneStep (fresh shape) events s
        → Lawful GapAt after (nothing_yet shape) events }
{}

/// Along every run of a lane, forged or not: each packet that an end puts is the canonical spelling of a packet. Where
/// it has a number, it is one more than how many with numbers the end put before. A part of a message has START exactly
/// where nothing of one was put, 56 bytes where another part follows, and makes no message above 256 bytes.
pub fn what_is_said_is_cut_and_numbered()
    ensures { (shape : Shape) (events : List DiskEvent) (s : LaneState)
        → IsShape shape → Run LaneStep (fresh shape) events s
        → Lawful SaidAt after (nothing_yet shape) events }
{}

/// Along every run of a lane, forged or not: no frames are lost as an end is configured, by its own step or by a reset.
pub fn no_frames_are_lost()
    ensures { (shape : Shape) (events : List DiskEvent) (s : LaneState)
        → IsShape shape → Run LaneStep (fresh shape) events s
        → Lawful LostAt after (nothing_yet shape) events }
{}

/// Along every run of a lane, forged or not: an end works only where it is up. The client works where it publishes a
/// request or completes one. The server does where it fetches a descriptor, moves or stores a unit or gives a
/// descriptor its status.
pub fn an_end_works_where_it_is_up()
    ensures { (shape : Shape) (events : List DiskEvent) (s : LaneState)
        → IsShape shape → Run LaneStep (fresh shape) events s
        → Lawful WorksAt after (nothing_yet shape) events }
{}

/// The events of every run are lawful. In lawful ones, take what an end works behind a reset of either end that was up,
/// or behind a stop of the server. It is of a session of its own that opened since. So nothing of an old session is
/// stored.
pub fn nothing_of_an_old_session_is_done()
    ensures { (shape : Shape) (before : List DiskEvent) (ending : DiskEvent) (between : List DiskEvent)
        (e : End) (event : Worked) (behind : List DiskEvent)
        → IsLawful shape (before ++ ending ∷ (between ++ Works event ∷ behind))
        → EndsSessions (log_of after (nothing_yet shape) before) ending → WorkOf e event → OpensAmong e between }
{}

/// Along every run of a lane, forged or not: an id that is published is the next of its session, accepted and not done.
/// One that is done was acknowledged in it. A descriptor is fetched where nothing of another is owed, from the slot of
/// its number, and is one of those asked for.
pub fn work_has_its_numbers()
    ensures { (shape : Shape) (events : List DiskEvent) (s : LaneState)
        → IsShape shape → Run LaneStep (fresh shape) events s
        → Lawful WorkNumbersAt after (nothing_yet shape) events }
{}

/// Along every run of a lane, forged or not, an end ends its work before it takes. A client completes what is
/// acknowledged before it takes, puts or publishes anything, and publishes only where nothing waits for it. A server
/// answers all that it was asked for before it takes anything. An end puts a packet, or finds no room for one, only
/// where it has one to put. That is of its link's handshake, of a message that its handshake owes, or of a range. It
/// puts what these handshakes owe before it takes, publishes or works, and is idle only where they owe nothing. A client
/// announces only where nothing waits for it, and once all that was accepted is published. It puts what it was blocked
/// with before it publishes, and a server before it works or takes. All this holds too of a packet for which an end
/// resets itself.
pub fn an_end_ends_its_work_before_it_takes()
    ensures { (shape : Shape) (events : List DiskEvent) (s : LaneState)
        → IsShape shape → Run LaneStep (fresh shape) events s
        → Lawful OrderAt after (nothing_yet shape) events }
{}

/// Along every run of a lane, forged or not: no reset loses frames. And one without a packet has its ground in the
/// ring, but where a script, a restart or a tick asks for it. At a client that is an acknowledged slot that isn't DONE.
/// At a server it is, in a range that isn't finished, the slot of the next descriptor, which isn't READY, or a copy
/// that was refused.
pub fn resets_without_a_packet_have_their_ground()
    ensures { (shape : Shape) (events : List DiskEvent) (s : LaneState)
        → IsShape shape → Run LaneStep (fresh shape) events s
        → Lawful WorkResetAt after (nothing_yet shape) events }
{}

/// Along every run of a lane, forged or not: where an end makes an idle step nothing waits for it. A client in session
/// has published all that was accepted, announced all that it published and completed all that was acknowledged. And a
/// server in session owes nothing of a descriptor, and has fetched and answered all that it was asked for.
pub fn an_idle_end_has_done_all()
    ensures { (shape : Shape) (events : List DiskEvent) (s : LaneState)
        → IsShape shape → Run LaneStep (fresh shape) events s
        → Lawful IdleAt after (nothing_yet shape) events }
{}

/// Along every run of a lane, forged or not: a descriptor that a server fetches is READY. What it does of one is the
/// next piece that the descriptor owes. A unit that is copied is refused for the first fault of its own bytes, over the pages that the client grants.
/// A unit that is read or written has the descriptor's operation, and its own place and number of blocks. The status is
/// the one that is owed, and its slot that of the descriptor's number.
pub fn what_is_done_is_the_next_piece()
    ensures { (shape : Shape) (events : List DiskEvent) (s : LaneState)
        → IsShape shape → Run LaneStep (fresh shape) events s
        → Lawful PiecesAt after (nothing_yet shape) events }
{}

/// Along every run of a lane, forged or not: a range is said and heard in a session alone, and ends within the ring. An
/// INFO that a client says has the next number and begins at the slot after the range before it. It names all requests
/// that were published since, and says that the ring is active. Where the client wasn't blocked with it, all that was
/// accepted is published by then. One that a server hears, and goes on with, has the next number and begins at the slot
/// after the range before it, which is answered. An acknowledgement that a client hears, and goes on with, begins at
/// the slot after the one before it and names announced requests alone. Both have no other sid than the handshake of
/// the end that hears them, and the number of its ring. Neither end hears another range, or a message of groups. One that a server says has the
/// number, the slots and the state of the INFO in work. It begins at the slot after the one before it and names all
/// descriptors that were asked for since, the last finished. Each that is said has the sid and the ring's number of the
/// end that says it.
pub fn ranges_name_what_was_done()
    ensures { (shape : Shape) (events : List DiskEvent) (s : LaneState)
        → IsShape shape → Run LaneStep (fresh shape) events s
        → Lawful RangesAt after (nothing_yet shape) events }
{}

/// On a lane that nobody forged, whatever was lost, reset, stopped or restarted: a step by which an end resets itself
/// has a gap in packets' numbers as its cause. And a packet was lost since the queues were last emptied. So each other
/// packet is one that the end may take, and each message one that it accepts. Each slot of the ring and each copy is as
/// the end expects.
pub fn an_end_resets_itself_behind_a_loss_alone()
    ensures step { (shape : Shape) (events : List DiskEvent) (s : LaneState) (e : End) (cause : Cause)
        (packet : Option (List ℕ)) (lost : ℕ) (t : LaneState)
        → IsShape shape → Run LaneStep (fresh shape) events s → s.wire.forged ≡ false
        → giver cause ≡ ByStep → LaneStep s (OnWire (Reset e cause packet lost)) t
        → IsOwnReset s.wire cause }
    ensures run { (shape : Shape) (events : List DiskEvent) (s : LaneState)
        → IsShape shape → Run LaneStep (fresh shape) events s
        → Lawful UnforgedAt after (nothing_yet shape) events }
{}

/// Along every run of a lane, where nobody forged until then: a descriptor that the server fetches is that of the
/// request with the next number of the client's session. No copy of a unit is refused. And the status of a completion
/// is the one that the server gave to that number in the last session of the client's sid.
pub fn work_is_done_as_it_was_asked()
    ensures { (shape : Shape) (events : List DiskEvent) (s : LaneState)
        → IsShape shape → Run LaneStep (fresh shape) events s
        → Lawful WorkUnforgedAt after (nothing_yet shape) events }
{}

/// Along every run of a lane, forged or not: a session opens in the handshake's order. That is about what the end said
/// and heard since it last began, up to the packet by which its session opens. It is the row of its link's handshake
/// and of its messages, one after the other and all of one sid. Between them stand only refusals, parts of messages,
/// and what was heard once the link was up.
pub fn sessions_open_in_order()
    ensures { (shape : Shape) (events : List DiskEvent) (s : LaneState)
        → IsShape shape → Run LaneStep (fresh shape) events s
        → Lawful OpeningsAt after (nothing_yet shape) events }
{}

/// At each moment of a lane, forged or not, its state and its log agree. The shape, the wire, and whether the server is
/// stopped or a call of its store failed, are the same. Each link counts what its end said and heard since it last
/// began, and holds what came of a message. Its phase is the one to which that led, and so is the end's handshake,
/// whole. What an end has still to send is what it owes without the parts that it put, where it put one or was blocked
/// with that, and else nothing. So a client announces exactly where it was blocked with that. The client's last sid is
/// how often its link came up; what is pending was accepted and isn't done; the sessions' counts are those of the log.
/// So are the server's next number, the range that it has in work and its region of the store. So is what a descriptor
/// in work owes yet, and which piece of it comes next, with how many bytes are held of its unit. The table grants each
/// page of the client's memory. An end whose idle step was the last event has nothing to do yet. Where nobody forged,
/// the near counts and the slots of the ring are those of the log too.
pub fn a_lane_agrees_with_its_log()
    ensures { (shape : Shape) (events : List DiskEvent) (s : LaneState)
        → IsShape shape → Run LaneStep (fresh shape) events s
        → AgreesWithLog s (log_of after (nothing_yet shape) events) }
{}

/// Two lanes that agree with one log are the same: their shapes and wires, and each end with its link, handshake and
/// session. So are the pending requests and the next id, the server's region and its descriptor in work, and the table.
/// So is whether the server is stopped or a call of its store failed. Where nobody forged, so are how near the images
/// are and how many requests were ever published. Left out are the memories, and the bytes of a unit that the server
/// holds, but for how many they are. The bytes of the last completion; and on forged lanes how many requests were ever
/// published.
pub fn one_log_has_one_state()
    ensures { (s t : LaneState) (l : DiskLog) → AgreesWithLog s l → AgreesWithLog t l → SameLane s t }
{}

/// Take a run of a lane where nobody forged and no packet was lost since the queues were last emptied. Let an end make
/// an idle step directly after an idle step of the other. Then all requests that were accepted are done, and both
/// sessions are open.
pub fn two_idle_ends_have_finished()
    ensures { (shape : Shape) (events : List DiskEvent) (s : LaneState)
        → IsShape shape → Run LaneStep (fresh shape) events s
        → Lawful TwoIdleAt after (nothing_yet shape) events }
{}

/// Of two steps of a lane, one of each end and one after the other, in either order, that are calm. Each idles, finds
/// no room for its packet, or is that of a stopped server. After them both ends are still, but for a stopped server's,
/// forged or not. Each is up, and has nothing to take and nothing to do, or the other's queue has no room. Where nobody
/// forged and the server runs, both idle, and the lane is as it was: never is there no room. And where moreover no
/// packet was lost since the queues were last emptied, all is done: nothing is pending, both sessions are open, and
/// nothing waits for either end.
pub fn calm_ends_have_finished()
    ensures still { (shape : Shape) (events : List DiskEvent) (s : LaneState)
        (e : End) (one : DiskEvent) (m : LaneState) (next : DiskEvent) (t : LaneState)
        → IsShape shape → Run LaneStep (fresh shape) events s
        → LaneStep s one m → IsCalm e one → LaneStep m next t → IsCalm (peer_of e) next
        → AreStill t (after (after (log_of after (nothing_yet shape) events) one) next) }
    ensures idle { (shape : Shape) (events : List DiskEvent) (s : LaneState)
        (e : End) (one : DiskEvent) (m : LaneState) (next : DiskEvent) (t : LaneState)
        → IsShape shape → Run LaneStep (fresh shape) events s → s.wire.forged ≡ false → s.stopped ≡ false
        → LaneStep s one m → IsCalm e one → LaneStep m next t → IsCalm (peer_of e) next
        → (one ≡ OnWire (Idle e)) × (next ≡ OnWire (Idle (peer_of e))) × (t ≡ s) }
    ensures finished { (shape : Shape) (events : List DiskEvent) (s : LaneState)
        (e : End) (one : DiskEvent) (m : LaneState) (next : DiskEvent) (t : LaneState)
        → IsShape shape → Run LaneStep (fresh shape) events s
        → s.wire.forged ≡ false → s.wire.lossy ≡ false → s.stopped ≡ false
        → LaneStep s one m → IsCalm e one → LaneStep m next t → IsCalm (peer_of e) next
        → HaveFinished t }
{}

/// Each step of an end of a lane that nobody forged lowers what remains to be done, also one by which the end resets
/// itself. Or it is calm, and doesn't raise it. So it is whatever was lost, reset, stopped or restarted on the way
/// there. On any lane a step forges nothing, loses no packet, and neither stops nor starts the server; and an idle one
/// leaves the lane as it was.
pub fn a_step_lowers_what_remains_or_is_calm()
    ensures falls { (shape : Shape) (events : List DiskEvent) (s : LaneState)
        (e : End) (event : DiskEvent) (t : LaneState)
        → IsShape shape → Run LaneStep (fresh shape) events s → s.wire.forged ≡ false
        → LaneStep s event t → IsStep e event
        → (IsCalm e event × (remaining t ≤ remaining s)) ⊎ (remaining t < remaining s) }
    ensures keeps { (s : LaneState) (e : End) (event : DiskEvent) (t : LaneState)
        → LaneStep s event t → IsStep e event → StepKeeps s t }
    ensures idles { (e : End) (s t : LaneState) → LaneStep s (OnWire (Idle e)) t → t ≡ s }
{}

/// Every run of a lane is lawful, forged or not. Each of its events may stand in the log of those before it, by all the
/// laws of the wire, of requests, of work and of rest.
pub fn every_run_of_a_lane_is_lawful()
    ensures { (shape : Shape) (events : List DiskEvent) (s : LaneState)
        → IsShape shape → Run LaneStep (fresh shape) events s → IsLawful shape events }
{}
