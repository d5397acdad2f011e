ghost use Rattle.std.specs.Prelude.{◌≡◌, ℕ, ◌<◌, false, List, length, IsTrue, slice_index};
ghost use Rattle.hex.specs.Hex.{decode_of, encode_lower, lower_digits};

/// What stands for the value of a byte that is no digit.
const NO_DIGIT: u8 = 255;

/// Reads a text as lower-case hexadecimal digits, two for each byte of a buffer. Where it isn't exactly that, the answer
/// is false, and what the buffer then holds is not specified.
///
/// No branch depends on a digit: one look at the end tells whether there was a bad one.
pub fn decode_lower(text: &[u8], out: &mut [u8]) -> bool
    ensures reads { IsTrue result → decode_of text.now ≡ Ok out.new }
    ensures lower { IsTrue result → text.now ≡ encode_lower out.new }
    ensures none { result ≡ false → (bytes : List ℕ) → length bytes ≡ length out.old → decode_of text.now ≡ Ok bytes → text.now ≡ encode_lower bytes → ⊥ }
{
    if text.len() % 2 != 0 || text.len() / 2 != out.len() {
        return false;
    }
    let mut good = true;
    'bytes: for i in 0..out.len() {
        let high = digit(text[2 * i]);
        let low = digit(text[2 * i + 1]);
        out[i] = high % 16 * 16 + low % 16;
        good = good & (high < 16) & (low < 16);
    }
    good
}

/// The value of a lower-case hexadecimal digit; of another byte NO_DIGIT.
fn digit(byte: u8) -> u8
    ensures spelled { result < 16 → slice_index lower_digits result ≡ byte }
    ensures exact { (value : ℕ) → value < 16 → slice_index lower_digits value ≡ byte → result ≡ value }
{
    if byte.is_ascii_digit() {
        byte - b'0'
    } else if byte >= b'a' && byte <= b'f' {
        byte - b'a' + 10
    } else {
        NO_DIGIT
    }
}
