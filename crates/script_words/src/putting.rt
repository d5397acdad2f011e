// Words, put one after another into the buffer of a line.
ghost use Rattle.std.specs.Prelude.{◌≡◌, ◌+◌, ◌*◌, ◌≤◌, ◌∷◌, ◌++◌, length, take, decimal};
ghost use Rattle.hex.specs.Hex.{IsBytes, encode_lower};
ghost use Rattle.script_words.specs.Fills.{IsFill, IsPiece};
ghost use Rattle.script_words.specs.Texts.{front_text, name_text};
ghost use Rattle.script_words.specs.Words.{IsName};

use crate::{Fill, Name, Piece};
use hex::encode_to_slice;
use itoa::Buffer;

/// Puts bytes after the first `len`. Answers where they end.
pub fn put(bytes: &[u8], out: &mut [u8; 3100], len: usize) -> usize
    requires { len + length bytes.now ≤ 3100 }
    ensures text { take result out.new ≡ take len out.old ++ bytes.now }
    ensures len { result ≡ len + length bytes.now }
{
    let end = len + bytes.len();
    out[len..end].copy_from_slice(bytes);
    end
}

/// Puts a space and a word.
fn put_word(word: &[u8], out: &mut [u8; 3100], len: usize) -> usize
    requires { len + 1 + length word.now ≤ 3100 }
    ensures text { take result out.new ≡ take len out.old ++ 32 ∷ word.now }
    ensures len { result ≡ len + 1 + length word.now }
{
    out[len] = b' ';
    put(word, out, len + 1)
}

/// Puts a number.
pub fn put_number(n: u64, out: &mut [u8; 3100], len: usize) -> usize
    requires { len + 41 ≤ 3100 }
    ensures text { take result out.new ≡ take len out.old ++ 32 ∷ decimal n }
    ensures len { result ≤ len + 41 }
{
    let mut buffer = Buffer::new();
    put_word(buffer.format(n).as_bytes(), out, len)
}

/// Puts a name.
pub fn put_name(name: &Name, out: &mut [u8; 3100], len: usize) -> usize
    requires name { IsName name.now }
    requires room { len + 9 ≤ 3100 }
    ensures text { take result out.new ≡ take len out.old ++ 32 ∷ name_text name.now }
    ensures len { result ≤ len + 9 }
{
    put_word(&name.bytes[..name.len as usize], out, len)
}

/// Puts the bytes of a write, or those of a poke, in hexadecimal.
pub fn put_fill(fill: &Fill, out: &mut [u8; 3100], len: usize) -> usize
    requires bytes { IsFill fill.now }
    requires room { len + 2049 ≤ 3100 }
    ensures text { take result out.new ≡ take len out.old ++ 32 ∷ front_text fill.now.len fill.now.bytes }
    ensures len { result ≤ len + 2049 }
    ensures small { IsBytes (take fill.now.len fill.now.bytes) }
{
    put_bytes(&fill.bytes[..fill.len as usize], out, len)
}

/// Puts the bytes of a frame in hexadecimal.
pub fn put_piece(piece: &Piece, out: &mut [u8; 3100], len: usize) -> usize
    requires bytes { IsPiece piece.now }
    requires room { len + 3081 ≤ 3100 }
    ensures text { take result out.new ≡ take len out.old ++ 32 ∷ front_text piece.now.len piece.now.bytes }
    ensures len { result ≤ len + 3081 }
    ensures small { IsBytes (take piece.now.len piece.now.bytes) }
{
    put_bytes(&piece.bytes[..piece.len as usize], out, len)
}

/// Puts a space and bytes in hexadecimal.
pub fn put_bytes(bytes: &[u8], out: &mut [u8; 3100], len: usize) -> usize
    requires { len + 1 + 2 * length bytes.now ≤ 3100 }
    ensures text { take result out.new ≡ take len out.old ++ 32 ∷ encode_lower bytes.now }
    ensures len { result ≡ len + 1 + 2 * length bytes.now }
    ensures small { IsBytes bytes.now }
{
    out[len] = b' ';
    put_hex(bytes, out, len + 1)
}

/// Puts bytes in hexadecimal, two digits each.
fn put_hex(bytes: &[u8], out: &mut [u8; 3100], len: usize) -> usize
    requires { len + 2 * length bytes.now ≤ 3100 }
    ensures text { take result out.new ≡ take len out.old ++ encode_lower bytes.now }
    ensures len { result ≡ len + 2 * length bytes.now }
    ensures small { IsBytes bytes.now }
{
    let end = len + 2 * bytes.len();
    match encode_to_slice(bytes, &mut out[len..end]) {
        Ok(()) => end,
        Err(_) => unreachable!(),
    }
}
