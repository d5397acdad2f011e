// The zeros at an array's end, which aren't kept.

ghost use Rattle.std.specs.Prelude.{◌≡◌, ◌-◌, ◌≤◌, length, drop, replicate, IsTrue};
ghost use Rattle.trimmed_arrays.specs.Trimmed.{padded};

/// An array without the zeros at its end. Eight bytes are looked at together, as one number.
pub(crate) fn front_of(array: &[u8]) -> &[u8]
    ensures same { padded (length array.now) result.now ≡ array.now }
    ensures within { length result.now ≤ length array.now }
{
    let front = without_zero_words(array);
    match front.last_chunk::<8>() {
        Some(word) => &front[..front.len() - zeros_behind(word)],
        None => without_zero_bytes(front),
    }
}

/// An array without the words of eight zeros at its end.
fn without_zero_words(array: &[u8]) -> &[u8]
    ensures same { padded (length array.now) result.now ≡ array.now }
    ensures within { length result.now ≤ length array.now }
{
    let mut front = array;
    while let Some((before, word)) = front.split_last_chunk::<8>() {
        if !are_zeros(word) {
            break;
        }
        front = before;
    }
    front
}

/// Whether eight bytes are zeros.
fn are_zeros(word: &[u8; 8]) -> bool
    ensures { IsTrue result → word.now ≡ replicate 8 0 }
{
    u64::from_le_bytes(*word) == 0
}

/// How many zeros are at the end of eight bytes.
fn zeros_behind(word: &[u8; 8]) -> usize
    ensures within { result ≤ 8 }
    ensures zeros { drop (8 - result) word.now ≡ replicate result 0 }
{
    (u64::from_le_bytes(*word).leading_zeros() / 8) as usize
}

/// Bytes without the zeros at their end, one after another.
fn without_zero_bytes(array: &[u8]) -> &[u8]
    ensures same { padded (length array.now) result.now ≡ array.now }
    ensures within { length result.now ≤ length array.now }
{
    let mut front = array;
    while let Some((last, before)) = front.split_last() {
        if *last != 0 {
            break;
        }
        front = before;
    }
    front
}
