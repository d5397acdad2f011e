// Bytes and other values as words.

use std::alloc::Global;
use std::fmt::Debug;

/// The bytes of a packet, or of so many others.
pub fn packet<const N: usize>(word: &str) -> Option<[u8; N]> {
    let mut bytes = [0; N];
    match word.strip_suffix('~') {
        Some(digits) => hex::decode_to_slice(digits, bytes.get_mut(..digits.len() / 2)?).ok()?,
        None => hex::decode_to_slice(word, &mut bytes).ok()?,
    }
    Some(bytes)
}

/// The bytes of a message, of which `~` fills 56.
pub fn message(alloc: Global, word: &str) -> Option<Vec<u8>> {
    if word.ends_with('~') {
        packet::<56>(word)?.to_vec(alloc).ok()
    } else {
        hex::decode(alloc, word).ok()
    }
}

/// The word of a packet, or of other bytes whose number is known, without the zeros at its end.
pub fn word_of(alloc: Global, bytes: &[u8]) -> Option<String> {
    let digits = hex::encode(alloc, bytes).ok()?;
    let front = digits.as_str().trim_end_matches("00");
    if front.len() == digits.len() {
        Some(digits)
    } else {
        format!(in alloc; "{front}~").ok()
    }
}

/// The runs of equal bytes, each with its length.
pub fn runs_of(alloc: Global, bytes: &[u8]) -> Option<String> {
    let mut text = String::new(alloc);
    for run in bytes.chunk_by(|one, next| one == next) {
        let count = run.len();
        let byte = run.first()?;
        write!(text, "{count}*{byte:02x} ").ok()?;
    }
    text.push_str("end").ok()?;
    Some(text)
}

/// A value as its `Debug` has it.
pub fn shown<T: Debug>(alloc: Global, value: &T) -> Option<String> {
    format!(in alloc; "{value:?}").ok()
}
