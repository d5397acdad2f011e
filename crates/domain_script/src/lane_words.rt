ghost use Rattle.std.specs.Prelude.{◌≡◌, ◌≢◌, ◌↔◌, ℕ, List, [], ◌∷◌, ◌++◌, MatchOption, IfNone, IfSome, IsTrue};
ghost use Rattle.domain_script.specs.declared.event.EndName.{EndName as end_data};
ghost use Rattle.domain_script.specs.declared.event.Lane.{Lane as lane_data};
ghost use Rattle.domain_script.specs.declared.event.Side.{Side as side_data};
ghost use Rattle.domain_script.specs.LaneKinds.{lane_at};
ghost use Rattle.domain_script.specs.Naming.{side_text};
ghost use Rattle.domain_script.specs.Spells.{IsOfKind, NamesEnd, NamesLane, SpellsFields};
ghost use Rattle.domain_script.specs.Values.{ValuesOf};
ghost use Rattle.script_words.specs.Words.{words};

use crate::fields::{EndKind, Field, LaneKind};
use crate::{EndName, Lane, Names, Side};
use script_words::spellings::name;
use script_words::words::one_word;

/// The lane that a word names.
pub fn declared_lane(word: &[u8], names: &Names) -> Option<Lane>
    ensures some { IfSome result (NamesLane names.now word.now) }
    ensures none { IfNone result ((lane : lane_data) → NamesLane names.now word.now lane → ⊥) }
{
    names.find(&name(word)?)
}

/// The number of the lane of this kind that a word names.
pub fn declared_number(word: &[u8], names: &Names, kind: LaneKind) -> Option<u32>
    ensures some { IfSome result (λ number. NamesLane names.now word.now (lane_at kind number)) }
    ensures none { IfNone result ((number : ℕ) → NamesLane names.now word.now (lane_at kind number) → ⊥) }
{
    let lane = declared_lane(word, names)?;
    lane.number_if(kind)
}

/// The name and the side that a word spells: `.c` after a client's name, `.s` after a server's.
pub fn name_and_side(word: &[u8]) -> Option<(&[u8], Side)>
    ensures { MatchOption result ((name : List ℕ) (side : side_data) → word.now ≢ name ++ side_text side) (λ p. word.now ≡ p.0.now ++ side_text p.1) }
{
    match word {
        [name @ .., b'.', b'c'] => Some((name, Side::Client)),
        [name @ .., b'.', b's'] => Some((name, Side::Server)),
        _ => None,
    }
}

/// The end of this kind that a word names.
pub fn declared_end(word: &[u8], names: &Names, kind: EndKind) -> Option<EndName>
    ensures some { IfSome result (NamesEnd names.now word.now) }
    ensures kind { IfSome result (IsOfKind kind) }
    ensures none { IfNone result ((end : end_data) → NamesEnd names.now word.now end → IsOfKind kind end → ⊥) }
{
    let (name, side) = name_and_side(word)?;
    let lane = declared_lane(name, names)?;
    let end = EndName { lane, side };
    if is_of_kind(end, kind) {
        Some(end)
    } else {
        None
    }
}

/// Whether an end is of this kind: of a disk's two ends the client alone has memory, of a port's each.
fn is_of_kind(end: EndName, kind: EndKind) -> bool
    ensures { IsTrue result ↔ IsOfKind kind end }
{
    match kind {
        EndKind::Any => true,
        EndKind::DiskServer => end.lane.kind == LaneKind::Disk && end.side == Side::Server,
        EndKind::WithMemory => end.lane.kind != LaneKind::Disk || end.side == Side::Client,
    }
}

/// The number of the lane of this kind that the one word of a row names.
pub fn one_number(fields: &[u8], names: &Names, kind: LaneKind) -> Option<u32>
    ensures some { IfSome result (λ number. SpellsFields names.now (Field.Named kind ∷ []) (words fields.now) (number, tt)) }
    ensures none { IfNone result ((values : ValuesOf (Field.Named kind ∷ [])) → SpellsFields names.now (Field.Named kind ∷ []) (words fields.now) values → ⊥) }
{
    declared_number(one_word(fields)?, names, kind)
}

/// The lane that it names.
pub fn one_lane(fields: &[u8], names: &Names) -> Option<Lane>
    ensures some { IfSome result (λ lane. SpellsFields names.now (Field.LaneName ∷ []) (words fields.now) (lane, tt)) }
    ensures none { IfNone result ((values : ValuesOf (Field.LaneName ∷ [])) → SpellsFields names.now (Field.LaneName ∷ []) (words fields.now) values → ⊥) }
{
    declared_lane(one_word(fields)?, names)
}

/// The end of this kind that it names.
pub fn one_end(fields: &[u8], names: &Names, kind: EndKind) -> Option<EndName>
    ensures some { IfSome result (λ end. SpellsFields names.now (Field.End kind ∷ []) (words fields.now) (end, tt)) }
    ensures none { IfNone result ((values : ValuesOf (Field.End kind ∷ [])) → SpellsFields names.now (Field.End kind ∷ []) (words fields.now) values → ⊥) }
{
    declared_end(one_word(fields)?, names, kind)
}
