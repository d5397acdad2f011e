// The addresses that words spell, and whether a port has them.
ghost use Rattle.std.specs.Prelude.{◌≡◌, ◌↔◌, ◌&&◌, ℕ, List, IfNone, IfSome, IsTrue};
ghost use Rattle.domain_script.specs.Declarations.{addresses};
ghost use Rattle.domain_script.specs.NamesState.{IsFreeAddress};
ghost use Rattle.script_words.specs.Addresses.{is_among, IsAddress};
ghost use Rattle.script_words.specs.Words.{bytes_of, is_exactly, SpellsExactly};

use crate::Names;
use script_words::addresses::is_own;
use script_words::spellings::address;

/// The address that a word spells, where a port may be declared with it.
pub fn new_address(word: &[u8], names: &Names) -> Option<[u8; 6]>
    ensures some { IfSome result (SpellsExactly 6 word.now) }
    ensures own { IfSome result IsAddress }
    ensures free { IfSome result (IsFreeAddress names.now) }
    ensures none { IfNone result ((address : List ℕ) → SpellsExactly 6 word.now address → IsAddress address → IsFreeAddress names.now address → ⊥) }
{
    let address = address(word)?;
    if may_be_declared(&address, names) {
        Some(address)
    } else {
        None
    }
}

/// Whether a port may be declared with an address: it is a port's own, and no port has it.
fn may_be_declared(address: &[u8; 6], names: &Names) -> bool
    ensures { IsTrue result ↔ (IsAddress address.now × IsFreeAddress names.now address.now) }
{
    is_own(address) && names.is_free_address(address)
}

/// Whether a word spells an address that a port has.
pub fn has_taken_address(word: &[u8], names: &Names) -> bool
    ensures { result ≡ (is_exactly 6 word.now && is_among (bytes_of word.now) (addresses names.now.ports)) }
{
    match address(word) {
        Some(address) => !names.is_free_address(&address),
        None => false,
    }
}
