// What follows from the definitions, once for every width and every table.

ghost use Rattle.std.specs.Prelude.{◌≡◌, ℕ, ◌+◌, ◌^◌, ◌<◌, ◌≤◌, List, length, slice_index};
ghost use Rattle.byteorder.specs.Endian.{big_bytes};
ghost use Rattle.vio_bytes.specs.Layout.{AreApart, IsSoundTable};
ghost use Rattle.vio_bytes.specs.Place.{IsOutside, number_at, put_at};
ghost use Rattle.vio_bytes.specs.Range.{range_at};

/// A number that was put reads back, and nothing else changes: no byte outside its field, and no
/// number outside it.
pub fn put_reads_back()
    ensures same_length { (width at value : ℕ) (bytes : List ℕ) → at + width ≤ length bytes
        → length (put_at at (big_bytes width value) bytes) ≡ length bytes }
    ensures reads_back { (width at value : ℕ) (bytes : List ℕ) → at + width ≤ length bytes → value < 256 ^ width
        → number_at width at (put_at at (big_bytes width value) bytes) ≡ value }
    ensures other_bytes_stay { (width at value k : ℕ) (bytes : List ℕ) → at + width ≤ length bytes
        → IsOutside k 1 at width
        → slice_index (put_at at (big_bytes width value) bytes) k ≡ slice_index bytes k }
    ensures other_numbers_stay { (width at value w p : ℕ) (bytes : List ℕ) → at + width ≤ length bytes
        → IsOutside p w at width
        → number_at w p (put_at at (big_bytes width value) bytes) ≡ number_at w p bytes }
{}

/// The fields of a sound table don't overlap, and lie within its length.
pub fn fields_lie_apart()
    ensures { (fields : List (ℕ × ℕ)) (len : ℕ) → IsSoundTable fields len → AreApart fields len }
{}

/// A range that was written reads back, and so does each part of it. A range outside of it stays, and in a range around
/// it the write is a write.
pub fn writes_meet_ranges()
    ensures same { (at n : ℕ) (piece bytes : List ℕ) → length piece ≡ n → at ≤ length bytes
        → range_at at n (put_at at piece bytes) ≡ piece }
    ensures inside { (i k at : ℕ) (piece bytes : List ℕ) → i + k ≤ length piece → at ≤ length bytes
        → range_at (at + i) k (put_at at piece bytes) ≡ range_at i k piece }
    ensures outside { (p w at : ℕ) (piece bytes : List ℕ) → at + length piece ≤ length bytes
        → IsOutside p w at (length piece)
        → range_at p w (put_at at piece bytes) ≡ range_at p w bytes }
    ensures around { (i at n : ℕ) (piece bytes : List ℕ) → i + length piece ≤ n → at + n ≤ length bytes
        → range_at at n (put_at (at + i) piece bytes) ≡ put_at i piece (range_at at n bytes) }
{}
