// What follows from the invariant of a lane.

ghost use Rattle.std.specs.Prelude.{◌≡◌, ℕ, Bool, ◌≤◌, ◌*◌, false, true, length, List, map, ◌<◌, ◌+◌, Option, Some, is_some};
ghost use Rattle.runs.specs.Lawful.{log_of, Lawful};
ghost use Rattle.runs.specs.Run.{Run};
ghost use Rattle.cookie_copy.specs.Identity.{IsIdentity};
ghost use Rattle.ldc_link.specs.declared.phase.Role.TheVariants.{Initiator, Responder};
ghost use Rattle.ldc_link.specs.Following.{Follows};
ghost use Rattle.ldc_queue.specs.declared.end.End.TheVariants.{A};
ghost use Rattle.ldc_queue.specs.declared.end.End.{End};
ghost use Rattle.ldc_queue.specs.declared.end.End.TheVariants.{A, B};
ghost use Rattle.ldc_queue.specs.OneStream.{IsFront};
ghost use Rattle.ldc_queue.specs.Transcript.{numbered_heard, numbered_said};
ghost use Rattle.ldc_queue.specs.Wire.{peer_of};
ghost use Rattle.lane_models.specs.Sayings.{heard, said};
ghost use Rattle.lane_models.specs.TranscriptLog.{transcript_of};
ghost use Rattle.lane_models.specs.WireAt.{IsUp};
ghost use Rattle.lane_models.specs.WireEvent.{ByTick, Sent, Reset, Took, giver};
ghost use Rattle.vio_tag.specs.declared.cause.Cause.{Cause};
ghost use Rattle.lane_laws.specs.Agreement.{ClientAgrees, IdleAgrees, ServerAgrees};
ghost use Rattle.lane_laws.specs.DiskLog.{after, nothing_yet};
ghost use Rattle.lane_laws.specs.QuietLaws.{TickAt};
ghost use Rattle.lane_laws.specs.RequestLaws.{AdmissionAt, CarriesAt, OnceAt, ServerRunsAt};
ghost use Rattle.lane_laws.specs.WorkLaws.{Unforged};
ghost use Rattle.lane_laws.specs.WorkLog.{ClientCounts, ServerCounts};
ghost use Rattle.lane_models.specs.DiskEvent.{Desc, DiskEvent, Done, OnWire, Published, Works};
ghost use Rattle.lane_models.specs.LaneState.{fresh, pages_of, IsShape, LaneState, Shape};
ghost use Rattle.lane_models.specs.LaneStep.{LaneStep};
ghost use Rattle.lane_models.specs.Offering.{client_offer, server_offer};
ghost use Rattle.lane_models.specs.LaneCore.{CoreFits, CoreStep, fresh_core};
ghost use Rattle.lane_laws.specs.ChannelEnds.{core_event, core_of};
ghost use Rattle.vio_handshake.specs.Offers.{Match};
ghost use Rattle.lane_laws.specs.CompletedIds.{done_ids, CountsFrom};
ghost use Rattle.lane_laws.specs.CompletesSlot.{CompletesSlot};
ghost use Rattle.lane_laws.specs.CountsOrdered.{CountsOrdered};
ghost use Rattle.lane_laws.specs.RingAgreed.{AlwaysAgree, RingStands};
ghost use Rattle.lane_models.specs.Grounds.{OpenRests};
ghost use Rattle.lane_laws.specs.HeardStands.{HeardAt};
ghost use Rattle.lane_laws.specs.LaneTranscripts.{transcript_behind};
ghost use Rattle.lane_laws.specs.SlotsInOrder.{RingInOrder};
ghost use Rattle.lane_laws.specs.SlotsWritten.{SlotFreed, SlotPublished, SlotsCleared};
ghost use Rattle.lane_laws.specs.Remaining.{remaining};
ghost use Rattle.lane_laws.specs.RemainingSteps.{AllDo, TakesNothing};
ghost use Rattle.lane_laws.specs.LossTold.{TellsLoss};
ghost use Rattle.lane_laws.specs.OneSession.{AreOneSession};
ghost use Rattle.lane_laws.specs.TickBegins.{TickBegins};
ghost use Rattle.lane_laws.specs.Sound.{CountsInOrder};
ghost use Rattle.lane_laws.specs.TableStands.{AnswersAt, TableAt};
ghost use Rattle.lane_models.specs.Utterances.{SaysEach};

/// Each run of a lane, forged or not, is a run of two ends on a channel, event by event. What its ends offer fits a
/// program's fields, and the server expects the ring that the client offers.
pub fn a_lane_is_two_ends_on_a_channel()
    ensures run { (shape : Shape) (events : List DiskEvent) (s : LaneState)
        → IsShape shape → Run LaneStep (fresh shape) events s
        → Run CoreStep (fresh_core shape.entries (client_offer shape.blocks shape.slots) (server_offer shape.blocks shape.slots))
        (map core_event events) (core_of s) }
    ensures sizes { (shape : Shape) → IsShape shape
        → CoreFits shape.entries (client_offer shape.blocks shape.slots) (server_offer shape.blocks shape.slots) }
    ensures offers { (shape : Shape) → IsShape shape
        → Match (client_offer shape.blocks shape.slots) (server_offer shape.blocks shape.slots) }
{}

/// Along every run of a lane, forged or not, state and log are lossy exactly where a packet was lost behind the last
/// event that emptied the queues. Such an event begins an end anew that was up, or stops the server.
pub fn a_lane_is_lossy_behind_a_loss()
    ensures state { (shape : Shape) (events : List DiskEvent) (s : LaneState)
        → IsShape shape → Run LaneStep (fresh shape) events s → TellsLoss shape events s.wire.lossy }
    ensures log { (shape : Shape) (events : List DiskEvent) (s : LaneState)
        → IsShape shape → Run LaneStep (fresh shape) events s
        → TellsLoss shape events (log_of after (nothing_yet shape) events).wire.lossy }
{}

/// On a lane that nobody forged, what an end that is up has heard is a front of what the other end has said, each since
/// it last began. It is so packet by packet of those with numbers, and message by message. So it is whatever was lost,
/// reset, stopped or restarted on the way there. At each moment: a front of a run is a run.
pub fn heard_is_a_front_of_said_on_a_lane()
    ensures packets { (shape : Shape) (events : List DiskEvent) (s : LaneState) (e : End)
        → IsShape shape → Run LaneStep (fresh shape) events s
        → s.wire.forged ≡ false → IsUp e s.wire.wire
        → IsFront (numbered_heard (transcript_of e (transcript_behind events)))
        (numbered_said (transcript_of (peer_of e) (transcript_behind events))) }
    ensures messages { (shape : Shape) (events : List DiskEvent) (s : LaneState) (e : End)
        → IsShape shape → Run LaneStep (fresh shape) events s
        → s.wire.forged ≡ false → IsUp e s.wire.wire
        → IsFront (heard (transcript_of e (transcript_behind events))) (said (transcript_of (peer_of e) (transcript_behind events))) }
{}

/// Along every run of a lane, forged or not: a request is refused for its defect, finds as many pending as the ring has
/// slots, or is accepted. It has the number of those accepted before it. Each completion has the number of those before
/// it, and is of the request that was accepted with that number. And a server makes a step, is reset or is stopped only
/// where it runs. So the completions have the numbers 0, 1, 2 and so on.
pub fn requests_complete_once_in_order_on_a_lane()
    ensures admission { (shape : Shape) (events : List DiskEvent) (s : LaneState)
        → IsShape shape → Run LaneStep (fresh shape) events s
        → Lawful AdmissionAt after (nothing_yet shape) events }
    ensures once { (shape : Shape) (events : List DiskEvent) (s : LaneState)
        → IsShape shape → Run LaneStep (fresh shape) events s
        → Lawful OnceAt after (nothing_yet shape) events }
    ensures ids { (shape : Shape) (events : List DiskEvent) (s : LaneState)
        → IsShape shape → Run LaneStep (fresh shape) events s
        → CountsFrom 0 (done_ids events) }
    ensures runs { (shape : Shape) (events : List DiskEvent) (s : LaneState)
        → IsShape shape → Run LaneStep (fresh shape) events s
        → Lawful ServerRunsAt after (nothing_yet shape) events }
{}

/// Along every run of a lane, forged or not: a completion of a read with the status 0 carries 512 bytes a block, and
/// every other completion none.
pub fn completions_carry_their_blocks()
    ensures { (shape : Shape) (events : List DiskEvent) (s : LaneState)
        → IsShape shape → Run LaneStep (fresh shape) events s
        → Lawful CarriesAt after (nothing_yet shape) events }
{}

/// Along every run of a lane, forged or not: each event of the wire stands where the states of the ends and what waits
/// for them let it. An answer that changes nothing is said exactly where it is so.
pub fn events_stand_by_states_and_queues()
    ensures table { (shape : Shape) (events : List DiskEvent) (s : LaneState)
        → IsShape shape → Run LaneStep (fresh shape) events s
        → Lawful TableAt after (nothing_yet shape) events }
    ensures answers { (shape : Shape) (events : List DiskEvent) (s : LaneState)
        → IsShape shape → Run LaneStep (fresh shape) events s
        → Lawful AnswersAt after (nothing_yet shape) events }
{}

/// Along every run of a lane, forged or not: each packet that an end takes and doesn't reset itself for is 64 bytes
/// that spell a packet. Where it has a number, it is one more than how many with numbers the end heard before. And a
/// part of a message has START exactly where nothing of a message had come, and makes no message above 256 bytes.
pub fn what_is_heard_may_come()
    ensures { (shape : Shape) (events : List DiskEvent) (s : LaneState)
        → IsShape shape → Run LaneStep (fresh shape) events s
        → Lawful HeardAt after (nothing_yet shape) events }
{}

/// Along every run of a lane, forged or not: a tick changes nothing exactly where the client's session is open and
/// nothing is pending, and else resets the client.
pub fn ticks_are_calm_where_all_is_done()
    ensures { (shape : Shape) (events : List DiskEvent) (s : LaneState)
        → IsShape shape → Run LaneStep (fresh shape) events s
        → Lawful TickAt after (nothing_yet shape) events }
{}

/// What always holds of a lane's ends, forged or not: each link's numbers and half message are those of what its end
/// said and heard since it last began. The counts of the client's session stand in their order, completed,
/// acknowledged, announced and published, none beyond what is pending. No more is pending than the ring has slots; and
/// the client's memory keeps its length.
pub fn ends_of_a_lane_stand()
    ensures client_link { (shape : Shape) (events : List DiskEvent) (s : LaneState)
        → IsShape shape → Run LaneStep (fresh shape) events s
        → Follows s.client.link (transcript_behind events).a }
    ensures server_link { (shape : Shape) (events : List DiskEvent) (s : LaneState)
        → IsShape shape → Run LaneStep (fresh shape) events s
        → Follows s.server.link (transcript_behind events).b }
    ensures counts { (shape : Shape) (events : List DiskEvent) (s : LaneState)
        → IsShape shape → Run LaneStep (fresh shape) events s
        → CountsInOrder (length s.client.pending) s.client.session }
    ensures pending { (shape : Shape) (events : List DiskEvent) (s : LaneState)
        → IsShape shape → Run LaneStep (fresh shape) events s
        → length s.client.pending ≤ s.client.slots }
    ensures memory { (shape : Shape) (events : List DiskEvent) (s : LaneState)
        → IsShape shape → Run LaneStep (fresh shape) events s
        → length s.memory ≡ 8192 * pages_of s.shape }
{}

/// Where the last event of a run of a lane was an idle step of an end, resting is still that end's next step: the lane
/// is as it was.
pub fn an_idle_end_has_nothing_to_do()
    ensures { (shape : Shape) (events : List DiskEvent) (s : LaneState)
        → IsShape shape → Run LaneStep (fresh shape) events s
        → IdleAgrees s (log_of after (nothing_yet shape) events).last_idle }
{}

/// At each moment of a lane, forged or not: the table grants to the server each page of the client's memory at the
/// page's own index, with both rights. It grants nothing else.
pub fn pages_of_a_lane_stay_granted()
    ensures { (shape : Shape) (events : List DiskEvent) (s : LaneState)
        → IsShape shape → Run LaneStep (fresh shape) events s
        → IsIdentity s.table (pages_of s.shape) }
{}

/// What a client writes into its memory at a step of a lane, forged or not: as its session opens each slot holds
/// nothing. A request that is published stands, READY, in the slot of its number, and a write's bytes in the slot's
/// buffer. The slot of a request that is done was DONE, with the status that the completion carries, and is FREE. Its
/// other bytes are as they were. No other slot and no other buffer changes.
pub fn a_client_writes_one_slot()
    ensures opens { (shape : Shape) (events : List DiskEvent) (s t : LaneState) (packet : List ℕ)
        → IsShape shape → Run LaneStep (fresh shape) events s → LaneStep s (OnWire (Sent A packet true)) t
        → SlotsCleared s t }
    ensures publishes { (shape : Shape) (events : List DiskEvent) (s t : LaneState) (id : ℕ)
        → IsShape shape → Run LaneStep (fresh shape) events s → LaneStep s (Works (Published id)) t
        → SlotPublished s id t }
    ensures frees { (shape : Shape) (events : List DiskEvent) (s t : LaneState)
        (id operation status : ℕ) (bytes : List ℕ)
        → IsShape shape → Run LaneStep (fresh shape) events s → LaneStep s (Works (Done id operation status bytes)) t
        → SlotFreed s status t }
{}

/// What remains to be done on a lane, along every run, forged or not. A fresh lane has 36 before it. Each step of an
/// end that takes nothing lowers it. In such a step an end joins or puts a packet, or the client publishes or completes
/// a request. Or the server fetches a descriptor, does a piece of it or ends it. After a reset of an end that was up
/// exactly 35 remain, and 16 for each pending request; where a packet was lost before, that is less than remained.
/// Where nobody forged, a packet that an end takes lowers it too; so of the steps by which an end does something no
/// more follow one another than remain.
pub fn what_remains_falls_by_what_an_end_does()
    ensures fresh { (shape : Shape) → remaining (fresh shape) ≡ 36 }
    ensures steps { (shape : Shape) (events : List DiskEvent) (s : LaneState) (event : DiskEvent) (t : LaneState)
        → IsShape shape → Run LaneStep (fresh shape) events s
        → LaneStep s event t → TakesNothing event → remaining t < remaining s }
    ensures resets { (shape : Shape) (events : List DiskEvent) (s : LaneState) (e : End) (cause : Cause)
        (packet : Option (List ℕ)) (lost : ℕ) (t : LaneState)
        → IsShape shape → Run LaneStep (fresh shape) events s → IsUp e s.wire.wire
        → LaneStep s (OnWire (Reset e cause packet lost)) t
        → remaining t ≡ 35 + 16 * length s.client.pending }
    ensures again { (shape : Shape) (events : List DiskEvent) (s : LaneState) (e : End) (cause : Cause)
        (packet : Option (List ℕ)) (lost : ℕ) (t : LaneState)
        → IsShape shape → Run LaneStep (fresh shape) events s → IsUp e s.wire.wire → s.wire.lossy ≡ true
        → LaneStep s (OnWire (Reset e cause packet lost)) t → remaining t < remaining s }
    ensures takes { (shape : Shape) (events : List DiskEvent) (s : LaneState) (e : End)
        (packet : List ℕ) (opens : Bool) (t : LaneState)
        → IsShape shape → Run LaneStep (fresh shape) events s → s.wire.forged ≡ false
        → LaneStep s (OnWire (Took e packet opens)) t → remaining t < remaining s }
    ensures many { (shape : Shape) (events : List DiskEvent) (s : LaneState) (more : List DiskEvent) (t : LaneState)
        → IsShape shape → Run LaneStep (fresh shape) events s → s.wire.forged ≡ false
        → Run LaneStep s more t → AllDo more → remaining t + length more ≤ remaining s }
{}

/// Along every run of a lane, forged or not: an end whose session is open heard since it last began the messages by
/// which it agreed on what it holds. The client heard the agreements to its version and to its ring, with the number
/// that the server has for it. The server heard the offer of a version, of which it took the smaller minor, and the
/// registration of the client's ring. All have the session's sid.
pub fn open_sessions_rest_on_what_was_heard()
    ensures client { (shape : Shape) (events : List DiskEvent) (s : LaneState)
        → IsShape shape → Run LaneStep (fresh shape) events s
        → is_some s.client.session ≡ true
        → OpenRests Initiator s.client.handshake (heard (transcript_behind events).a) }
    ensures server { (shape : Shape) (events : List DiskEvent) (s : LaneState)
        → IsShape shape → Run LaneStep (fresh shape) events s
        → is_some s.server.session ≡ true
        → OpenRests Responder s.server.handshake (heard (transcript_behind events).b) }
{}

/// Along every run of a lane, forged or not: each message that an end said since it last began is as its handshake has
/// it. The client's have its sid, offer its version and register its ring. The server's agree to the minor that its
/// session holds, and give the client's ring the number by which it knows it.
pub fn ends_say_what_their_handshakes_hold()
    ensures client { (shape : Shape) (events : List DiskEvent) (s : LaneState)
        → IsShape shape → Run LaneStep (fresh shape) events s
        → SaysEach Initiator s.client.handshake.phase s.client.handshake.offer s.client.handshake.draft (said (transcript_behind events).a) }
    ensures server { (shape : Shape) (events : List DiskEvent) (s : LaneState)
        → IsShape shape → Run LaneStep (fresh shape) events s
        → SaysEach Responder s.server.handshake.phase s.server.handshake.offer s.server.handshake.draft (said (transcript_behind events).b) }
{}

/// On a lane that nobody forged, each message that an end that is up has heard since it last began is as the other
/// end's handshake has it now. So it is whatever was lost, reset, stopped or restarted on the way there.
pub fn what_is_heard_is_as_the_other_end_has_it()
    ensures client { (shape : Shape) (events : List DiskEvent) (s : LaneState)
        → IsShape shape → Run LaneStep (fresh shape) events s
        → s.wire.forged ≡ false → IsUp A s.wire.wire
        → SaysEach Responder s.server.handshake.phase s.server.handshake.offer s.server.handshake.draft (heard (transcript_behind events).a) }
    ensures server { (shape : Shape) (events : List DiskEvent) (s : LaneState)
        → IsShape shape → Run LaneStep (fresh shape) events s
        → s.wire.forged ≡ false → IsUp B s.wire.wire
        → SaysEach Initiator s.client.handshake.phase s.client.handshake.offer s.client.handshake.draft (heard (transcript_behind events).b) }
{}

/// On a lane that nobody forged, whatever was lost, reset, stopped or restarted: where both sessions are open both ends
/// are up, and the sessions are one. They have one sid and one minor, the smaller of those that the ends offer. The
/// server knows the client's ring by the sid, which is the number that the client has for it. And that ring has the
/// slots and the cookies that the client offers.
pub fn open_sessions_are_one()
    ensures up { (shape : Shape) (events : List DiskEvent) (s : LaneState)
        → IsShape shape → Run LaneStep (fresh shape) events s
        → s.wire.forged ≡ false → is_some s.client.session ≡ true → is_some s.server.session ≡ true
        → IsUp A s.wire.wire × IsUp B s.wire.wire }
    ensures one { (shape : Shape) (events : List DiskEvent) (s : LaneState)
        → IsShape shape → Run LaneStep (fresh shape) events s
        → s.wire.forged ≡ false → is_some s.client.session ≡ true → is_some s.server.session ≡ true
        → AreOneSession s.client.handshake s.server.handshake }
    ensures offer { (shape : Shape) (events : List DiskEvent) (s : LaneState)
        → IsShape shape → Run LaneStep (fresh shape) events s
        → s.client.handshake.offer ≡ client_offer s.client.blocks s.client.slots }
{}

/// What the log of a run counts of the two sessions is what the ends count, forged or not. Each range that an end says
/// or hears whole counts its slots. A server's counts are those of the log modulo 2^64. Where nobody forged and the
/// server's end is up with its session open, the client's session is open too, of the same ring. The counts stand in
/// their order: what is done was finished, what was fetched was asked for, and what was asked for was announced. So it
/// was published, less than 2^64 in all. Where both sessions are open, what is acknowledged was answered, what was
/// answered finished, and what was finished fetched. What was fetched was asked for, what was asked for announced, and
/// what was announced published.
pub fn sessions_count_alike()
    ensures client { (shape : Shape) (events : List DiskEvent) (s : LaneState)
        → IsShape shape → Run LaneStep (fresh shape) events s
        → ClientAgrees s.client.session (log_of after (nothing_yet shape) events).work.done
        (log_of after (nothing_yet shape) events).work.client }
    ensures server { (shape : Shape) (events : List DiskEvent) (s : LaneState)
        → IsShape shape → Run LaneStep (fresh shape) events s
        → ServerAgrees s.server.session s.server.work (log_of after (nothing_yet shape) events).work.server }
    ensures agree { (shape : Shape) → IsShape shape → AlwaysAgree shape }
    ensures turn { (shape : Shape) (events : List DiskEvent) (s : LaneState) (k : ClientCounts) (d : ServerCounts)
        → IsShape shape → Run LaneStep (fresh shape) events s
        → (log_of after (nothing_yet shape) events).wire.forged ≡ false
        → (log_of after (nothing_yet shape) events).work.client ≡ Some k
        → (log_of after (nothing_yet shape) events).work.server ≡ Some d → CountsOrdered k d }
{}

/// On a lane that nobody forged: a completion is of the first request that isn't done, and carries the status with
/// which the server ended the descriptor in its slot.
pub fn a_completion_carries_the_servers_status()
    ensures { (shape : Shape) (events : List DiskEvent) (s t : LaneState) (id operation status : ℕ) (bytes : List ℕ)
        → IsShape shape → Run LaneStep (fresh shape) events s
        → LaneStep s (Works (Done id operation status bytes)) t
        → (log_of after (nothing_yet shape) events).wire.forged ≡ false
        → (k : ClientCounts) × CompletesSlot s (log_of after (nothing_yet shape) events) id status k }
{}

/// On a lane that nobody forged: each descriptor that the server fetches is that of the request with the next number of
/// the client's session.
pub fn a_server_fetches_the_next_request()
    ensures { (shape : Shape) (events : List DiskEvent) (s t : LaneState) (slot : ℕ) (bytes : List ℕ)
        → IsShape shape → Run LaneStep (fresh shape) events s → LaneStep s (Works (Desc slot bytes)) t
        → (log_of after (nothing_yet shape) events).wire.forged ≡ false
        → Unforged (log_of after (nothing_yet shape) events) (Works (Desc slot bytes)) }
{}

/// At each moment of a lane the table grants each page at its own index. On one that nobody forged, the bytes of each
/// slot of the ring are what the log says of the slot. They are zeros before the first session, FREE, or the descriptor
/// of a request, READY, ACCEPTED, or DONE with its status. Each number in a slot was published in the open session and
/// isn't done, and stands in the slot of its number. And the descriptor in work stands ACCEPTED.
pub fn the_ring_is_as_its_log_says()
    ensures { (shape : Shape) (events : List DiskEvent) (s : LaneState)
        → IsShape shape → Run LaneStep (fresh shape) events s
        → RingStands s (log_of after (nothing_yet shape) events) }
{}

/// The slots of the ring in order, on a lane that nobody forged, where the client's session is open. Around the ring
/// from the first request that isn't done, those that the server finished are DONE, each with some status. At most one
/// is ACCEPTED; the announced ones that it hasn't fetched are READY; so are the published ones that aren't announced.
/// All others are FREE. Each has the bytes of its request's descriptor. What is acknowledged is finished, and what is
/// fetched or asked for was announced. The counts are those of the server's session where it has one. Where it has none
/// and the client's end is up, nothing is finished or fetched. Where the client's end is up, so is the server's, and
/// what is on the way agrees with its place. The INFO that it hasn't heard begin there, with the seq that it expects.
/// One after the other they name all up to the last that is announced. The ACK that the client hasn't heard name all
/// from the last that is acknowledged to the last that is answered. Each packet of them waits for its end, or was lost.
pub fn slots_stand_in_order()
    ensures { (shape : Shape) (events : List DiskEvent) (s : LaneState) (k : ClientCounts)
        → IsShape shape → Run LaneStep (fresh shape) events s
        → (log_of after (nothing_yet shape) events).wire.forged ≡ false
        → (log_of after (nothing_yet shape) events).work.client ≡ Some k
        → RingInOrder s (log_of after (nothing_yet shape) events) k }
{}

/// A tick resets the client only where its session isn't open or something is pending, and so it is after it. No
/// request is lost, nobody has forged by it, and the server runs as before. Where the client's end is up no packet is
/// lost of those that are put from then on. 35 remain and 16 for each pending request; and where a packet was lost
/// before, that is less than remained.
pub fn a_tick_begins_a_lane_anew()
    ensures { (shape : Shape) (events : List DiskEvent) (s : LaneState) (e : End) (cause : Cause)
        (packet : Option (List ℕ)) (lost : ℕ) (t : LaneState)
        → IsShape shape → Run LaneStep (fresh shape) events s → giver cause ≡ ByTick
        → LaneStep s (OnWire (Reset e cause packet lost)) t → TickBegins s t }
{}

/// What remains to be done on a lane that nobody forged is at most 36 and 16 for each pending request. Where a packet
/// was lost since the queues were last emptied it is at most 69 and 32 for each. So it is whatever was lost, reset,
/// stopped or restarted on the way there. Both are reached: the first by a fresh lane, the second where the first
/// packet of a lane is lost. The count of a settling allows 192 for a lane and 64 for each pending request.
pub fn little_remains_where_nobody_forged()
    ensures whole { (shape : Shape) (events : List DiskEvent) (s : LaneState)
        → IsShape shape → Run LaneStep (fresh shape) events s → s.wire.forged ≡ false → s.wire.lossy ≡ false
        → remaining s ≤ 36 + 16 * length s.client.pending }
    ensures lossy { (shape : Shape) (events : List DiskEvent) (s : LaneState)
        → IsShape shape → Run LaneStep (fresh shape) events s → s.wire.forged ≡ false
        → remaining s ≤ 69 + 32 * length s.client.pending }
    ensures reached { (shape : Shape) → IsShape shape
        → (events : List DiskEvent) × (s : LaneState) × Run LaneStep (fresh shape) events s
        × (s.wire.forged ≡ false) × (remaining s ≡ 69 + 32 * length s.client.pending) }
{}
