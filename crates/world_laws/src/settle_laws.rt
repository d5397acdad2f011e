// What follows for a settle over lanes that were reached, each by a run of its own.

ghost use Rattle.std.specs.Prelude.{◌≡◌, ℕ, true, false, [], ◌∷◌, ◌++◌, ◌≤◌, ◌+◌, ◌<◌, List, length};
ghost use Rattle.runs.specs.Run.{Run};
ghost use Rattle.ldc_queue.specs.declared.end.End.{End};
ghost use Rattle.ldc_queue.specs.declared.end.End.TheVariants.{A, B};
ghost use Rattle.lane_models.specs.WireEvent.{Idle};
ghost use Rattle.lane_models.specs.DiskEvent.{Off, OnWire, Switches};
ghost use Rattle.lane_models.specs.LaneState.{LaneState};
ghost use Rattle.lane_models.specs.LaneStep.{LaneStep};
ghost use Rattle.lane_models.specs.Reached.{IsReached};
ghost use Rattle.world_laws.specs.Along.{LanesMove};
ghost use Rattle.world_laws.specs.Begun.{SettleFront};
ghost use Rattle.world_laws.specs.Ended.{AllStill, EndsFinished, LanesEnd};
ghost use Rattle.world_laws.specs.Moves.{moves_in, IsLeftOver, NeverThree, ticks_in};
ghost use Rattle.world_laws.specs.Rounds.{are_quiet, Each, EachMarked, LaneRound, MakeRound};
ghost use Rattle.world_laws.specs.Settle.{begin, GoesOn, IsLast, left_over, most_rounds, RunsOut};
ghost use Rattle.world_laws.specs.Settle.{SettleEntry, Settled, SettlePart, SettleRound, Settles, Settling, Unsettled, entries_of_rounds};
ghost use Rattle.world_laws.specs.DiskKind.{waits_on};
ghost use Rattle.world_laws.specs.Sums.{IsUnforged, remaining_on};

/// Where nobody forged any of at most eight lanes, whatever was lost, reset, stopped or restarted, a settle ends
/// settled. Each of its rounds that isn't the last lowers what remains on all lanes together. So fewer are made than
/// may be, and it never runs out of them.
pub fn a_settle_of_unforged_lanes_ends_settled()
    ensures falls { (start : List LaneState) (rounds : List SettleRound) (now : Settling)
        → Each IsReached start → Each IsUnforged start → Run GoesOn (begin start) rounds now
        → length rounds + remaining_on now.lanes ≤ remaining_on start }
    ensures few { (start : List LaneState) (rounds : List SettleRound) (now : Settling)
        → Each IsReached start → Each IsUnforged start → length start ≤ 8 → Run GoesOn (begin start) rounds now
        → length rounds < most_rounds start }
    ensures never { (start : List LaneState) (part : List SettleEntry) (behind : List LaneState)
        → Each IsReached start → Each IsUnforged start → length start ≤ 8 → RunsOut start part behind
        → ⊥ }
    ensures ends { (start : List LaneState) (part : List SettleEntry) (behind : List LaneState)
        → Each IsReached start → Each IsUnforged start → length start ≤ 8 → SettlePart start part behind
        → Settles start part behind }
{}

/// After a settle that ends settled each lane that runs is finished, its client's session open and nothing pending, or
/// had its tick. Where nobody forged it, it is finished, also beside lanes that somebody forged. And where moreover no
/// packet was lost since the queues were last emptied, both sessions are open and nothing waits for either end.
pub fn running_lanes_are_finished_behind_a_settle()
    ensures part { (start : List LaneState) (part : List SettleEntry) (behind : List LaneState)
        → Each IsReached start → Settles start part behind → LanesEnd 0 part behind }
    ensures rounds { (start : List LaneState) (rounds : List SettleRound) (now : Settling) (steps : List LaneRound)
        (behind : List LaneState)
        → Each IsReached start → Run GoesOn (begin start) rounds now → IsLast now steps behind
        → EachMarked EndsFinished behind now.marks }
{}

/// After a round in which all lanes are quiet each end of every lane is still, but for a stopped server's, forged or
/// not. So it is at each tick of a settle, and where it ends settled.
pub fn all_ends_are_still_behind_a_quiet_round()
    ensures { (lanes : List LaneState) (steps : List LaneRound) (behind : List LaneState)
        → MakeRound lanes steps behind → are_quiet steps ≡ true → AllStill lanes steps behind }
{}

/// In the part of a settle no end of a lane finds no room three times with nothing but Blocked between. Where the
/// rounds ran out, the steps other than Blocked and the ticks in it are at least as many as the most rounds. For each
/// round that isn't the last leaves one. Then at least one lane is named. Each that is named moved in the rounds, or it
/// isn't finished though its server runs.
pub fn each_round_of_a_settle_moves()
    ensures stuck { (start : List LaneState) (part : List SettleEntry) (behind : List LaneState) (k : ℕ) (e : End)
        → SettlePart start part behind → NeverThree k e 0 part }
    ensures moves { (start : List LaneState) (part : List SettleEntry) (behind : List LaneState)
        → RunsOut start part behind → most_rounds start ≤ moves_in part }
    ensures names { (start : List LaneState) (part : List SettleEntry) (behind : List LaneState)
        (out : RunsOut start part behind) → Each IsReached start
        → 1 ≤ length (left_over 0 out.last.steps behind) }
    ensures left { (start : List LaneState) (part : List SettleEntry) (behind : List LaneState)
        (out : RunsOut start part behind) (x : ℕ) (before later : List SettleEntry)
        → left_over 0 out.last.steps behind ≡ before ++ Unsettled x ∷ later
        → IsLeftOver x (entries_of_rounds (out.rounds ++ out.last ∷ [])) behind }
{}

/// The part of a settle says what happened to each lane. The lane is run by the events that its entries have, one after
/// another, since a step that leaves no entry left the lane as it was. So it is where want of memory cut the part. In
/// one settle each lane gets one tick at most. Lanes that are moved by a part stay reached.
pub fn a_settle_moves_each_lane_by_its_part()
    ensures runs { (start : List LaneState) (part : List SettleEntry) (behind : List LaneState)
        → SettlePart start part behind → LanesMove 0 start part behind }
    ensures begun { (start : List LaneState) (part : List SettleEntry) (behind : List LaneState)
        → SettleFront start part behind → LanesMove 0 start part behind }
    ensures reached { (j : ℕ) (lanes : List LaneState) (part : List SettleEntry) (behind : List LaneState)
        → Each IsReached lanes → LanesMove j lanes part behind → Each IsReached behind }
    ensures ticks { (start : List LaneState) (part : List SettleEntry) (behind : List LaneState) (k : ℕ)
        → SettlePart start part behind → ticks_in k part ≤ 1 }
{}

/// The shortest settles: of no lanes; of a lane at rest that is finished; and of one whose client rests while its
/// server is stopped. One round, which leaves no entry, and Settled.
pub fn lanes_at_rest_settle_at_once()
    ensures none { Settles [] (Settled ∷ []) [] }
    ensures rest { (s : LaneState) → LaneStep s (OnWire (Idle A)) s → LaneStep s (OnWire (Idle B)) s
        → waits_on s ≡ false → Settles (s ∷ []) (Settled ∷ []) (s ∷ []) }
    ensures off { (s : LaneState) → LaneStep s (OnWire (Idle A)) s → LaneStep s (Switches Off) s
        → waits_on s ≡ false → Settles (s ∷ []) (Settled ∷ []) (s ∷ []) }
{}
