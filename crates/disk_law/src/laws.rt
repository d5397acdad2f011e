ghost use Rattle.std.specs.Prelude.{ℕ, List};
ghost use Rattle.runs.specs.Run.{Run};
ghost use Rattle.disk_law.specs.ListState.{ListState, fresh};
ghost use Rattle.disk_law.specs.ListStep.{ListEvent, ListStep};
ghost use Rattle.disk_law.specs.Issued.{Admission, CompletesOnceInOrder};

/// Requests on a plain list complete at most once, in the order in which they were accepted.
pub fn requests_complete_once_in_order()
    ensures { (first blocks ring : ℕ) (t : ListState) (es : List ListEvent)
        → Run ListStep (fresh first blocks ring) es t → CompletesOnceInOrder es }
{}

/// A request is refused, finds no room or is accepted exactly by its count, its range and what is pending.
pub fn each_request_is_admitted()
    ensures { (first blocks ring : ℕ) (t : ListState) (es : List ListEvent)
        → Run ListStep (fresh first blocks ring) es t → Admission blocks ring es }
{}
