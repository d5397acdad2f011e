ghost use Rattle.std.specs.Prelude.{◌≡◌, ◌≢◌, [], ◌∷◌, length, MatchOption};
ghost use Rattle.std.specs.List.{list_all};
ghost use Rattle.script_words.specs.Words.{is_printable, words};

use memchr::memchr;

/// The first word, and what follows the space that ends it. None where there is no space.
pub fn split_once(text: &[u8]) -> Option<(&[u8], &[u8])>
    ensures { MatchOption result (words text.now ≡ text.now ∷ []) (λ p. words text.now ≡ p.0.now ∷ words p.1.now) }
{
    let space = memchr(b' ', text)?;
    Some((&text[..space], &text[space + 1..]))
}

/// The word where there is one.
pub fn one_word(text: &[u8]) -> Option<&[u8]>
    ensures { MatchOption result (length (words text.now) ≢ 1) (λ word. words text.now ≡ word.now ∷ []) }
{
    match split_once(text) {
        Some(_) => None,
        None => Some(text),
    }
}

/// The words where there are two.
pub fn two_words(text: &[u8]) -> Option<(&[u8], &[u8])>
    ensures { MatchOption result (length (words text.now) ≢ 2) (λ p. words text.now ≡ p.0.now ∷ p.1.now ∷ []) }
{
    let (first, rest) = split_once(text)?;
    Some((first, one_word(rest)?))
}

/// The words where there are three.
pub fn three_words(text: &[u8]) -> Option<(&[u8], &[u8], &[u8])>
    ensures { MatchOption result (length (words text.now) ≢ 3) (λ p. words text.now ≡ p.0.now ∷ p.1.now ∷ p.2.now ∷ []) }
{
    let (first, rest) = split_once(text)?;
    let (second, third) = two_words(rest)?;
    Some((first, second, third))
}

/// The words where there are four.
pub fn four_words(text: &[u8]) -> Option<(&[u8], &[u8], &[u8], &[u8])>
    ensures { MatchOption result (length (words text.now) ≢ 4) (λ p. words text.now ≡ p.0.now ∷ p.1.now ∷ p.2.now ∷ p.3.now ∷ []) }
{
    let (first, rest) = split_once(text)?;
    let (second, third, fourth) = three_words(rest)?;
    Some((first, second, third, fourth))
}

/// How many words there are.
pub fn count_words(text: &[u8]) -> usize
    ensures { result ≡ length (words text.now) }
{
    let mut count = 1;
    for byte in text {
        if *byte == b' ' {
            count += 1;
        }
    }
    count
}

/// Whether bytes are printable. Each is looked at, also after one that isn't, so that many can be at once.
pub fn are_printable(bytes: &[u8]) -> bool
    ensures { result ≡ list_all is_printable bytes.now }
{
    let mut all = true;
    for byte in bytes {
        all &= *byte >= b' ' && *byte <= b'~';
    }
    all
}
