ghost use Rattle.std.specs.Prelude.{◌↔◌, IfNone, IfSome, IsTrue};
ghost use Rattle.script_words.specs.declared.spelled.Name.{Name as name_data};
ghost use Rattle.domain_script.specs.NamesState.{CanDeclare};
ghost use Rattle.script_words.specs.Words.{SpellsName};

use crate::fields::LaneKind;
use crate::{Name, Names};
use script_words::spellings::name;

/// The name that a word spells, where a lane of this kind may be declared under it.
pub fn new_name(word: &[u8], names: &Names, kind: LaneKind) -> Option<Name>
    ensures some { IfSome result (SpellsName word.now) }
    ensures can { IfSome result (CanDeclare names.now kind) }
    ensures none { IfNone result ((name : name_data) → SpellsName word.now name → CanDeclare names.now kind name → ⊥) }
{
    let name = name(word)?;
    if can_declare(&name, names, kind) {
        Some(name)
    } else {
        None
    }
}

/// Whether a lane of this kind may be declared under a name.
fn can_declare(name: &Name, names: &Names, kind: LaneKind) -> bool
    ensures { IsTrue result ↔ CanDeclare names.now kind name.now }
{
    names.is_open() && names.has_room(kind) && names.is_free(name)
}
