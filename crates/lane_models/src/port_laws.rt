// What follows from the definition of a step.

ghost use Rattle.std.specs.Prelude.{◌≡◌, ◌↔◌, ◌+◌, ◌%◌, ◌<◌, ◌&&◌, ◌||◌, ℕ, List, None, not, Option, slice_get, Some, true};
ghost use Rattle.ldc_link.specs.declared.phase.Role.{Role};
ghost use Rattle.vio_tag.specs.declared.cause.Cause.{Cause};
ghost use Rattle.lane_models.specs.Seeing.{Seen};
ghost use Rattle.cookie_copy.specs.Reach.{Reach};
ghost use Rattle.lane_models.specs.WireEvent.{ByStep, giver};
ghost use Rattle.dring.specs.Slots.{done_state};
ghost use Rattle.lane_models.specs.Groups.{groups_after, is_in, with_groups, without_groups};
ghost use Rattle.lane_models.specs.GroupSets.{ComesOf, IsRefused, Once};
ghost use Rattle.lane_models.specs.NetEndRule.{NetRule};
ghost use Rattle.lane_models.specs.NetEndState.{NetEndState};
ghost use Rattle.lane_models.specs.NetEndStep.{NetAnswer, NetEndStep, NetFails, NetLeft};
ghost use Rattle.lane_models.specs.NetEndTaking.{first_undone, slot_state};
ghost use Rattle.lane_models.specs.SlotsLooked.{FirstUndone};
ghost use Rattle.lane_models.specs.StepStands.{CanStep};

/// An end that resets itself does so for a cause of its own: never for one that a script, a restart or a tick gives. So
/// a lane tells by the cause who reset an end.
pub fn an_end_resets_itself_for_its_own_causes()
    ensures { (role : Role) (rule : NetRule) (s : NetEndState) (memory : List ℕ) (reach : Reach) (cause : Cause) (packet : Option (List ℕ))
        → NetFails role rule s memory reach cause packet → giver cause ≡ ByStep }
{}

/// The step of an end is a function of the end, of what it sees of the channel, of its memory, and of what it reaches
/// of the other end's. Two steps of one state have one answer and leave the same.
pub fn an_end_has_one_step()
    ensures { (role : Role) (s : NetEndState) (at : Seen) (memory : List ℕ) (reach : Reach) (one other : NetAnswer) (t u : NetLeft)
        → NetEndStep role s at memory reach one t → NetEndStep role s at memory reach other u → (one ≡ other) × (t ≡ u) }
{}

/// An end always has a step, whatever packet waits for it, and whatever stands in both memories and in the tables. Its
/// link must be up where its handshake owes a message and where its session is open.
pub fn an_end_always_has_a_step()
    ensures { (role : Role) (s : NetEndState) (at : Seen) (memory : List ℕ) (reach : Reach) → CanStep s at
        → (answer : NetAnswer) × (left : NetLeft) × NetEndStep role s at memory reach answer left }
{}

/// Lists of groups are sets of addresses. An address is in a list where it has a place there. A message of set 1 adds
/// those that it names, each once, and one of set 0 takes them away. It is refused that names more than seven, whose set
/// is another, or by which there would be more than seven.
pub fn lists_of_groups_are_sets()
    ensures among { (groups : List (List ℕ)) (a : List ℕ) → (is_in groups a ≡ true) ↔ ((i : ℕ) × (slice_get groups i ≡ Some a)) }
    ensures joined { (groups named : List (List ℕ)) (a : List ℕ) → is_in (with_groups groups named) a ≡ (is_in groups a || is_in named a) }
    ensures left { (groups named : List (List ℕ)) (a : List ℕ) → is_in (without_groups groups named) a ≡ (is_in groups a && not (is_in named a)) }
    ensures once { (groups named : List (List ℕ)) → Once groups → Once (with_groups groups named) }
    ensures refused { (set count : ℕ) (seven groups : List (List ℕ)) → (groups_after set count seven groups ≡ None) ↔ IsRefused set count seven groups }
    ensures comes { (set count : ℕ) (seven groups behind : List (List ℕ)) → groups_after set count seven groups ≡ Some behind
        → ComesOf set count seven groups behind }
{}

/// Where an end looks for a slot that isn't DONE, it looks at so many slots in the order of the ring, from a number on.
/// Each is DONE, or it finds one that isn't, with its state, and each before it is DONE.
pub fn slots_are_looked_at_in_ring_order()
    ensures none { (slots : ℕ) (memory : List ℕ) (number count i : ℕ) → first_undone slots memory number count ≡ None → i < count
        → slot_state ((number + i) % slots) memory ≡ done_state }
    ensures first { (slots : ℕ) (memory : List ℕ) (number count : ℕ) (cause : Cause) → first_undone slots memory number count ≡ Some cause
        → FirstUndone slots memory number count cause }
{}
