ghost use Rattle.std.specs.Prelude.{◌≡◌, ◌+◌, ◌*◌, ◌≤◌, [], ◌++◌, length, take, decimal, OnOk, OnErr, IsOk, IsErr};
ghost use Rattle.vio_io.specs.Causes.{Fails};
ghost use Rattle.std.specs.Io.KnownBytes.{Appends};
ghost use Rattle.hex.specs.Hex.{encode_lower};
ghost use Rattle.gathered_text.specs.Gathered.{Gathers, WroteFront};

use crate::digits::write_hex;
use crate::short_text::{SHORT_ROOM, ShortText};
use itoa::Buffer;
use std::fmt;
use std::marker::Model;
use vio_io::{Failed, Sink};

/// The most bytes that are gathered.
pub const TEXT_ROOM: usize = 65536;

/// Text that is gathered in front of a sink, so that the sink is called for some sixty kilobytes at a time. It takes no
/// memory. The sink is handed in at each call that may write.
#[derive(Drop)]
pub struct Text {
    buffer: [u8; TEXT_ROOM],
    len: usize,
}

impl Model for Text {
    ghost use Rattle.std.specs.Prelude.{◌≡◌, ℕ, ◌≤◌, List, length, take};

    ghost Value = { List ℕ };

    ghost view = { λ t. take t.len t.buffer };

    ghost invariant = { λ t. (t.len ≤ 65536) × (length t.buffer ≡ 65536) };
}

impl Text {
    /// Nothing is gathered.
    pub fn new() -> Self
        ensures { result ≡ [] }
    {
        Text {
            buffer: [0; TEXT_ROOM],
            len: 0,
        }
    }

    /// Gathers bytes, for which there has to be room.
    pub fn push(&mut self, bytes: &[u8])
        requires { length self.old + length bytes.now ≤ TEXT_ROOM }
        ensures text { self.new ≡ self.old ++ bytes.now }
        ensures len { length self.new ≡ length self.old + length bytes.now }
    {
        let end = self.len + bytes.len();
        self.buffer[self.len..end].copy_from_slice(bytes);
        self.len = end;
    }

    /// Gathers a short text, for which there has to be room for sixteen bytes, whatever its length.
    pub fn push_short(&mut self, short: &ShortText)
        requires { length self.old + SHORT_ROOM ≤ TEXT_ROOM }
        ensures text { self.new ≡ self.old ++ short.now }
        ensures len { length self.new ≤ length self.old + SHORT_ROOM }
    {
        self.buffer[self.len..self.len + SHORT_ROOM].copy_from_slice(short.padded());
        self.len += short.len();
    }

    /// Gathers a number in decimal digits.
    #[tactic(auto, using(std::proofs::lemmas::Fmt::decimal_digit))]
    pub fn push_number(&mut self, n: u64)
        requires { length self.old + 20 ≤ TEXT_ROOM }
        ensures text { self.new ≡ self.old ++ decimal n }
        ensures len { length self.new ≤ length self.old + 20 }
    {
        if n < 10 {
            self.push(&[b'0' + n as u8]);
        } else {
            self.push(Buffer::new().format(n).as_bytes());
        }
    }

    /// Gathers bytes as lower-case hexadecimal digits.
    pub fn push_hex(&mut self, bytes: &[u8])
        requires { length self.old + 2 * length bytes.now ≤ TEXT_ROOM }
        ensures text { self.new ≡ self.old ++ encode_lower bytes.now }
        ensures len { length self.new ≡ length self.old + 2 * length bytes.now }
    {
        let end = self.len + 2 * bytes.len();
        write_hex(bytes, &mut self.buffer[self.len..end]);
        self.len = end;
    }

    /// Makes room for n more bytes: what was gathered is written where it is in the way, and else the sink isn't called.
    pub fn make_room<K: Sink>(&mut self, n: usize, out: &mut K) -> Result<(), Failed>
        requires { n ≤ TEXT_ROOM }
        ensures few { length self.old ≤ TEXT_ROOM }
        ensures spared { length self.old + n ≤ TEXT_ROOM → IsOk result × (self.new ≡ self.old) × (out.new ≡ out.old) }
        ensures room { OnOk result (length self.new + n ≤ TEXT_ROOM) }
        ensures kept { OnErr result (self.new ≡ self.old) }
        ensures told { OnOk result (Gathers (K.written out.old) (K.written out.new) self.new self.old) }
        ensures front { OnErr result (WroteFront (K.written out.old) (K.written out.new) self.old) }
        ensures faults { Fails (IsErr result) (K.faults out.old) (K.faults out.new) }
    {
        if TEXT_ROOM - self.len < n {
            self.flush(out)?;
        }
        Ok(())
    }

    /// Writes all that was gathered.
    pub fn flush<K: Sink>(&mut self, out: &mut K) -> Result<(), Failed>
        ensures empty { OnOk result (self.new ≡ []) }
        ensures kept { OnErr result (self.new ≡ self.old) }
        ensures told { OnOk result (Appends (K.written out.old) (K.written out.new) self.old) }
        ensures front { OnErr result (WroteFront (K.written out.old) (K.written out.new) self.old) }
        ensures faults { Fails (IsErr result) (K.faults out.old) (K.faults out.new) }
    {
        write_all(out, &self.buffer[..self.len])?;
        self.len = 0;
        Ok(())
    }
}

/// What prints itself can be gathered by `write!`: each piece is gathered whole where there is room for it, else
/// nothing of it.
impl fmt::Write for Text {
    ghost use Rattle.std.specs.Prelude.{◌≡◌, ◌+◌, ◌++◌, ◌≤◌, ◌↔◌, IsOk, OnErr, length};

    ghost write_str_gives = { λ before bytes after. after ≡ before ++ bytes };

    fn write_str(&mut self, s: &str) -> fmt::Result
        ensures ok { IsOk result → self.new ≡ self.old ++ s.now }
        ensures room { IsOk result ↔ (length self.old + length s.now ≤ TEXT_ROOM) }
        ensures kept { OnErr result (self.new ≡ self.old) }
    {
        if TEXT_ROOM - self.len < s.len() {
            return Err(fmt::Error);
        }
        self.push(s.as_bytes());
        Ok(())
    }
}

/// Writes all these bytes, in as many calls as the sink asks for.
fn write_all<K: Sink>(out: &mut K, bytes: &[u8]) -> Result<(), Failed>
    ensures told { OnOk result (Appends (K.written out.old) (K.written out.new) bytes.now) }
    ensures front { OnErr result (WroteFront (K.written out.old) (K.written out.new) bytes.now) }
    ensures faults { Fails (IsErr result) (K.faults out.old) (K.faults out.new) }
{
    let mut at = 0;
    while at < bytes.len() {
        at += out.write(&bytes[at..])?;
    }
    Ok(())
}
