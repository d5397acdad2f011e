// The addresses that words spell, and of which kind they are.
ghost use Rattle.std.specs.Prelude.{◌≡◌, ◌↔◌, ◌&&◌, ℕ, not, List, IfNone, IfSome, IsTrue};
ghost use Rattle.script_words.specs.Addresses.{is_group, is_own, IsAddress, IsGroupAddress};
ghost use Rattle.script_words.specs.Words.{bytes_of, is_exactly, SpellsExactly};

use crate::spellings::address;

/// The address of all ports.
const BROADCAST: [u8; 6] = [255; 6];

/// The address of a group that a word spells.
pub fn group(word: &[u8]) -> Option<[u8; 6]>
    ensures some { IfSome result (SpellsExactly 6 word.now) }
    ensures group { IfSome result IsGroupAddress }
    ensures none { IfNone result ((address : List ℕ) → SpellsExactly 6 word.now address → IsGroupAddress address → ⊥) }
{
    let address = address(word)?;
    if is_group(&address) {
        Some(address)
    } else {
        None
    }
}

/// Whether an address may be a port's own: its first byte is even.
pub fn is_own(address: &[u8; 6]) -> bool
    ensures { IsTrue result ↔ IsAddress address.now }
{
    address[0] % 2 == 0
}

/// Whether an address is that of a group: its first byte is odd, and it isn't that of all ports.
fn is_group(address: &[u8; 6]) -> bool
    ensures { IsTrue result ↔ IsGroupAddress address.now }
{
    address[0] % 2 == 1 && *address != BROADCAST
}

/// Whether a word spells an address that can't be a port's own.
pub fn is_no_own(word: &[u8]) -> bool
    ensures { result ≡ (is_exactly 6 word.now && not (is_own (bytes_of word.now))) }
{
    match address(word) {
        Some(address) => !is_own(&address),
        None => false,
    }
}

/// Whether a word spells an address that isn't a group's.
pub fn is_no_group(word: &[u8]) -> bool
    ensures { result ≡ (is_exactly 6 word.now && not (is_group (bytes_of word.now))) }
{
    match address(word) {
        Some(address) => !is_group(&address),
        None => false,
    }
}
