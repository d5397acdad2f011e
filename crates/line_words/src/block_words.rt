ghost use Rattle.std.specs.Prelude.{◌≡◌, ◌+◌, ◌<◌, ◌≤◌, ◌++◌, codes, length, OnOk, OnErr, IsErr};
ghost use Rattle.vio_io.specs.Causes.{Fails};
ghost use Rattle.hex.specs.Hex.{encode_lower};
ghost use Rattle.kept_requests.specs.BlockWord.{blocks_text};
ghost use Rattle.gathered_text.specs.Gathered.{Gathers, WroteFront};

use gathered_text::{TEXT_ROOM, Text};
use ldom_entries::{Bytes, shortest_word};
use vio_io::{Failed, Sink};

/// The most bytes of a word's text, a space, `*` and two digits for each byte of a block, and one for what comes after.
const WORD_ROOM: usize = 1027;

/// Puts the text of a word.
fn put_word<K: Sink>(text: &mut Text, word: &[u8], out: &mut K) -> Result<(), Failed>
    requires { length word.now ≤ 512 }
    ensures room { OnOk result (length text.new < TEXT_ROOM) }
    ensures told { OnOk result (Gathers (K.written out.old) (K.written out.new) text.new (text.old ++ (codes " *" ++ encode_lower word.now))) }
    ensures front { OnErr result (WroteFront (K.written out.old) (K.written out.new) text.old) }
    ensures faults { Fails (IsErr result) (K.faults out.old) (K.faults out.new) }
{
    text.make_room(WORD_ROOM, out)?;
    text.push(b" *");
    text.push_hex(word);
    Ok(())
}

/// Puts the text of each block. Room is left for one byte more.
pub fn put_blocks<K: Sink>(text: &mut Text, bytes: &Bytes, out: &mut K) -> Result<(), Failed>
    requires { length text.old < TEXT_ROOM }
    ensures room { OnOk result (length text.new < TEXT_ROOM) }
    ensures told { OnOk result (Gathers (K.written out.old) (K.written out.new) text.new (text.old ++ blocks_text bytes.now.items)) }
    ensures front { OnErr result (WroteFront (K.written out.old) (K.written out.new) (text.old ++ blocks_text bytes.now.items)) }
    ensures faults { Fails (IsErr result) (K.faults out.old) (K.faults out.new) }
{
    let (lengths, mut kept) = bytes.words();
    for n in lengths {
        let (word, behind) = kept.split_at(usize::from(*n));
        put_word(text, word, out)?;
        kept = behind;
    }
    put_plain(text, kept, out)
}

/// Puts the text of each block of bytes that are kept as they are.
fn put_plain<K: Sink>(text: &mut Text, bytes: &[u8], out: &mut K) -> Result<(), Failed>
    requires { length text.old < TEXT_ROOM }
    ensures room { OnOk result (length text.new < TEXT_ROOM) }
    ensures told { OnOk result (Gathers (K.written out.old) (K.written out.new) text.new (text.old ++ blocks_text bytes.now)) }
    ensures front { OnErr result (WroteFront (K.written out.old) (K.written out.new) (text.old ++ blocks_text bytes.now)) }
    ensures faults { Fails (IsErr result) (K.faults out.old) (K.faults out.new) }
{
    let mut rest = bytes;
    while let Some((block, behind)) = rest.split_first_chunk::<512>() {
        put_word(text, &block[..shortest_word(block)], out)?;
        rest = behind;
    }
    Ok(())
}
