ghost use Rattle.std.specs.Prelude.{◌≡◌, ◌≢◌, ℕ, ◌<◌, [], IsFalse};
ghost use Rattle.vio_io.specs.FaultPlan.{Plan, after_calls, fails_next};
ghost use Rattle.vio_io.specs.Given.{next_given};
ghost use Rattle.vio_io.specs.Lists.{ListSinkState, refuses_next};

/// A plan that names no call fails none, however many are made, and its count stays. A sink with such a plan fails a
/// write only where no room is left.
pub fn a_plan_of_no_call_never_fails()
    ensures fails { (n : ℕ) (p : Plan) → p.failing ≡ [] → IsFalse (fails_next (after_calls n p)) }
    ensures count { (n : ℕ) (p : Plan) → p.failing ≡ [] → (after_calls n p).faults ≡ p.faults }
    ensures sink { (s : ListSinkState) → s.plan.failing ≡ [] → 0 < s.room → IsFalse (refuses_next s) }
{}

/// Each disk that a host gives changes its count. So a call that ends with a disk exactly as `Gave` says has one where
/// the count changed, and none where it stayed.
pub fn a_given_disk_changes_the_count()
    ensures { (count : ℕ) → next_given count ≢ count }
{}
