// What holds of all lines, as functions that do nothing and promise a theorem.
ghost use Rattle.std.specs.Prelude.{◌≡◌, ◌↔◌, ℕ, List, None};
ghost use Rattle.domain_script.specs.declared.event.Event.{Event as event_data};
ghost use Rattle.domain_script.specs.Faults.{first_fault};
ghost use Rattle.domain_script.specs.NamesState.{NamesState};
ghost use Rattle.domain_script.specs.Printed.{line_text};
ghost use Rattle.domain_script.specs.Spells.{IsBlank, Spells};

/// A line spells at most one event.
pub fn spells_at_most_one()
    ensures { (line : List ℕ) (names : NamesState) (a b : event_data) → Spells line names a → Spells line names b → a ≡ b }
{}

/// A line has a fault exactly where it spells no event.
pub fn faulty_lines_spell_nothing()
    ensures { (line : List ℕ) (names : NamesState)
        → (first_fault line names ≡ None) ↔ ((event : event_data) × Spells line names event) }
{}

/// A line that spells an event is that event's one line, unless it is blank. So what was parsed and printed parses to the
/// same event.
pub fn parsed_lines_are_printed()
    ensures one { (line : List ℕ) (names : NamesState) (event : event_data) → Spells line names event
        → (IsBlank line → ⊥) → line_text names event ≡ line }
    ensures again { (line : List ℕ) (names : NamesState) (event : event_data) → Spells line names event
        → Spells (line_text names event) names event }
{}
