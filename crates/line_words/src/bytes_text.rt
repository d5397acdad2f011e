// The digits of an entry's bytes, piece by piece: there may be any number of them.
ghost use Rattle.std.specs.Prelude.{◌≡◌, ◌<◌, ◌≤◌, ◌++◌, length, OnOk, OnErr, IsErr};
ghost use Rattle.vio_io.specs.Causes.{Fails};
ghost use Rattle.hex.specs.Hex.{encode_lower};
ghost use Rattle.gathered_text.specs.Gathered.{Gathers, WroteFront};
ghost use Rattle.kept_requests.specs.Packed.{block_of};

use gathered_text::{TEXT_ROOM, Text};
use ldom_entries::Bytes;
use vio_io::{Failed, Sink};

/// The most bytes of a piece: those of a block.
const PIECE: usize = 512;

/// The most bytes of a piece's digits, and one for what comes after.
const PIECE_ROOM: usize = 1025;

/// Puts the digits of a piece.
fn put_piece<K: Sink>(text: &mut Text, piece: &[u8], out: &mut K) -> Result<(), Failed>
    requires { length piece.now ≤ 512 }
    ensures room { OnOk result (length text.new < TEXT_ROOM) }
    ensures told { OnOk result (Gathers (K.written out.old) (K.written out.new) text.new (text.old ++ encode_lower piece.now)) }
    ensures front { OnErr result (WroteFront (K.written out.old) (K.written out.new) text.old) }
    ensures faults { Fails (IsErr result) (K.faults out.old) (K.faults out.new) }
{
    text.make_room(PIECE_ROOM, out)?;
    text.push_hex(piece);
    Ok(())
}

/// The block that repeats the first n of some bytes.
fn whole_block(bytes: &[u8], n: usize) -> [u8; 512]
    requires some { 0 < n }
    requires within { n ≤ length bytes.now }
    ensures { result ≡ block_of n bytes.now }
{
    let mut block = [0; PIECE];
    for k in 0..PIECE {
        block[k] = bytes[k % n];
    }
    block
}

/// Puts the digits of bytes. Room is left for one byte more.
pub fn put_bytes<K: Sink>(text: &mut Text, bytes: &Bytes, out: &mut K) -> Result<(), Failed>
    ensures room { OnOk result (length text.new < TEXT_ROOM) }
    ensures told { OnOk result (Gathers (K.written out.old) (K.written out.new) text.new (text.old ++ encode_lower bytes.now.items)) }
    ensures front { OnErr result (WroteFront (K.written out.old) (K.written out.new) (text.old ++ encode_lower bytes.now.items)) }
    ensures faults { Fails (IsErr result) (K.faults out.old) (K.faults out.new) }
{
    let (lengths, mut kept) = bytes.words();
    for size in lengths {
        let n = usize::from(*size);
        let block = whole_block(kept, n);
        let (_, behind) = kept.split_at(n);
        put_piece(text, &block, out)?;
        kept = behind;
    }
    put_pieces(text, kept, out)
}

/// Puts the digits of bytes that are kept as they are. Room is left for one byte more.
pub fn put_pieces<K: Sink>(text: &mut Text, bytes: &[u8], out: &mut K) -> Result<(), Failed>
    ensures room { OnOk result (length text.new < TEXT_ROOM) }
    ensures told { OnOk result (Gathers (K.written out.old) (K.written out.new) text.new (text.old ++ encode_lower bytes.now)) }
    ensures front { OnErr result (WroteFront (K.written out.old) (K.written out.new) (text.old ++ encode_lower bytes.now)) }
    ensures faults { Fails (IsErr result) (K.faults out.old) (K.faults out.new) }
{
    let mut rest = bytes;
    while let Some((piece, behind)) = rest.split_first_chunk::<512>() {
        put_piece(text, piece, out)?;
        rest = behind;
    }
    put_piece(text, rest, out)
}
