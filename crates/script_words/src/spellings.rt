ghost use Rattle.std.specs.Prelude.{◌≡◌, ◌≢◌, ◌↔◌, ℕ, ◌/◌, ◌≤◌, ◌++◌, false, List, length, take, drop, replicate, MatchOption, IfNone, IfSome, IsTrue, OnSome};
ghost use Rattle.hex.specs.Hex.{decode_of, encode_lower};
ghost use Rattle.std.specs.List.{list_all};
ghost use Rattle.script_words.specs.declared.spelled.Name.{Name as name_data};
ghost use Rattle.script_words.specs.declared.spelled.Piece.{Piece as piece_data};
ghost use Rattle.vdisk_msg.specs.declared.request.Fill.{Fill as fill_data};
ghost use Rattle.script_words.specs.Words.{begins_name, is_exactly, is_front, is_lower_digit, is_name, is_name_byte, IsNameWord, SpellsExactly, SpellsFill, SpellsFront, SpellsName, SpellsPiece};

use crate::digits::decode_lower;
use crate::{Fill, Name, Piece};

/// The most bytes that a write repeats.
pub const MOST_FILL: usize = 1024;

/// The most bytes of a frame that is handed to a guest.
pub const MOST_PIECE: usize = 1540;

/// The bytes of a packet.
pub const PACKET: usize = 64;

/// The bytes of an address.
pub const ADDRESS: usize = 6;

/// The fill of a write before its word is put into it: no bytes, and all zeros after them.
pub const NO_FILL: Fill = Fill {
    len: 0,
    bytes: [0; MOST_FILL],
};

/// A packet before its word is put into it.
pub const NO_PACKET: [u8; PACKET] = [0; PACKET];

/// The piece of a frame before its word is put into it: no bytes, and all zeros after them.
pub const NO_PIECE: Piece = Piece {
    len: 0,
    bytes: [0; MOST_PIECE],
};

/// The name that a word spells.
pub fn name(word: &[u8]) -> Option<Name>
    ensures some { IfSome result (SpellsName word.now) }
    ensures none { IfNone result ((name : name_data) → SpellsName word.now name → ⊥) }
{
    if word.len() > 8 || !is_name_word(word) {
        return None;
    }
    let mut bytes = [0; 8];
    bytes[..word.len()].copy_from_slice(word);
    Some(Name {
        len: word.len() as u8,
        bytes,
    })
}

/// Whether a word spells a name.
pub fn is_name(word: &[u8]) -> bool
    ensures { result ≡ is_name word.now }
{
    is_name_word(word) && word.len() <= 8
}

/// Whether a word is a letter and letters or digits after it.
fn is_name_word(word: &[u8]) -> bool
    ensures letters { IsTrue result ↔ IsNameWord word.now }
    ensures test { result ≡ begins_name word.now }
{
    match word {
        [] => false,
        [first, rest @ ..] => first.is_ascii_lowercase() && are_name_bytes(rest),
    }
}

fn are_name_bytes(bytes: &[u8]) -> bool
    ensures { result ≡ list_all is_name_byte bytes.now }
{
    bytes.iter().all(|b| is_name_byte(*b))
}

/// Whether a byte is a letter a to z or a digit.
fn is_name_byte(b: u8) -> bool
    ensures { result ≡ is_name_byte b }
{
    b.is_ascii_lowercase() || b.is_ascii_digit()
}

/// Whether a word spells 1 to so many bytes in hexadecimal.
pub fn is_front(word: &[u8], most: usize) -> bool
    ensures { result ≡ is_front most word.now }
{
    let len = word.len() / 2;
    are_lower_digits(word) && word.len() % 2 == 0 && len >= 1 && len <= most
}

/// Whether a word spells exactly so many bytes in hexadecimal.
pub fn is_exactly(word: &[u8], size: usize) -> bool
    ensures { result ≡ is_exactly size word.now }
{
    are_lower_digits(word) && word.len() % 2 == 0 && word.len() / 2 == size
}

fn are_lower_digits(word: &[u8]) -> bool
    ensures { result ≡ list_all is_lower_digit word.now }
{
    word.iter().all(|b| is_lower_digit(*b))
}

/// Whether a byte is a lower-case hexadecimal digit.
fn is_lower_digit(b: u8) -> bool
    ensures { result ≡ is_lower_digit b }
{
    b.is_ascii_digit() || b >= b'a' && b <= b'f'
}

/// Puts the bytes that a word spells in hexadecimal into a fill that was all zeros: the word is their own lower-case
/// text. None where it spells none; what the fill then is, is not specified.
pub fn put_fill(word: &[u8], fill: &mut Fill) -> Option<()>
    requires { fill.old.bytes ≡ replicate 1024 0 }
    ensures some { OnSome result (SpellsFill word.now fill.new) }
    ensures none { IfNone result ((fill : fill_data) → SpellsFill word.now fill → ⊥) }
{
    let len = put_front(word, MOST_FILL, &mut fill.bytes)?;
    fill.len = len as u16;
    Some(())
}

/// Puts them into a piece that was all zeros, likewise.
pub fn put_piece(word: &[u8], piece: &mut Piece) -> Option<()>
    requires { piece.old.bytes ≡ replicate 1540 0 }
    ensures some { OnSome result (SpellsPiece word.now piece.new) }
    ensures none { IfNone result ((piece : piece_data) → SpellsPiece word.now piece → ⊥) }
{
    let len = put_front(word, MOST_PIECE, &mut piece.bytes)?;
    piece.len = len as u16;
    Some(())
}

/// Puts the bytes that a word spells in hexadecimal to the front of a room of so many zeros, and answers how many they
/// are. None where it spells none or more than the room holds; what the room then has, is not specified.
fn put_front(word: &[u8], most: usize, room: &mut [u8]) -> Option<usize>
    requires { room.old ≡ replicate most 0 }
    ensures some { IfSome result (λ len. SpellsFront most word.now len room.new) }
    ensures none { IfNone result ((len : ℕ) (bytes : List ℕ) → SpellsFront most word.now len bytes → ⊥) }
{
    let len = word.len() / 2;
    if len == 0 || len > most {
        return None;
    }
    if !decode_front(word, room) {
        return None;
    }
    Some(len)
}

/// Puts the 64 bytes that a word spells in hexadecimal into a packet: the word is their own lower-case text. None where
/// it spells none; what the packet then is, is not specified.
pub fn put_packet(word: &[u8], packet: &mut [u8; 64]) -> Option<()>
    ensures some { OnSome result (SpellsExactly 64 word.now packet.new) }
    ensures none { IfNone result ((packet : List ℕ) → SpellsExactly 64 word.now packet → ⊥) }
{
    if !decode_lower(word, packet) {
        return None;
    }
    Some(())
}

/// The address whose six bytes a word spells in hexadecimal: the word is their own lower-case text.
pub fn address(word: &[u8]) -> Option<[u8; 6]>
    ensures some { IfSome result (SpellsExactly 6 word.now) }
    ensures none { IfNone result ((address : List ℕ) → SpellsExactly 6 word.now address → ⊥) }
{
    let mut bytes = [0; ADDRESS];
    if decode_lower(word, &mut bytes) {
        Some(bytes)
    } else {
        None
    }
}

/// Reads a word as lower-case hexadecimal digits into the front of a room. False where it isn't that.
fn decode_front(word: &[u8], room: &mut [u8]) -> bool
    requires { length word.now / 2 ≤ length room.old }
    ensures reads { IsTrue result → decode_of word.now ≡ Ok (take (length word.now / 2) room.new) }
    ensures lower { IsTrue result → word.now ≡ encode_lower (take (length word.now / 2) room.new) }
    ensures behind { IsTrue result → drop (length word.now / 2) room.new ≡ drop (length word.now / 2) room.old }
    ensures none { result ≡ false → (bytes : List ℕ) → length bytes ≡ length word.now / 2 → decode_of word.now ≡ Ok bytes → word.now ≡ encode_lower bytes → ⊥ }
{
    let len = word.len() / 2;
    decode_lower(word, &mut room[..len])
}
