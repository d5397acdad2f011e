ghost use Rattle.std.specs.Prelude.{◌≡◌, ℕ, ◌+◌, ◌≤◌, ◌∷◌, IfNone, IfSome};
ghost use Rattle.script_words.specs.Words.{is_number, is_within, IsWithin, SpellsNumber};

use itoa::Buffer;

/// The numbers that a line may have in a place.
#[derive(Clone, Copy, Debug, PartialEq, Eq)]
pub enum Bounds {
    /// Any that it can spell.
    Any,

    /// Those from the least to the most.
    Between { least: u32, most: u32 },

    /// The powers of two among them.
    PowerBetween { least: u32, most: u32 },
}

/// The number that a word spells: it is that number's own decimal text.
pub fn number(word: &[u8]) -> Option<u64>
    ensures some { IfSome result (SpellsNumber word.now) }
    ensures none { IfNone result ((n : ℕ) → SpellsNumber word.now n → ⊥) }
{
    match plain_number(word) {
        Some(n) => Some(n),
        None => parsed_number(word),
    }
}

/// The number that a word spells, read digit by digit; none for any other word. For 0 there may be none as well.
fn plain_number(word: &[u8]) -> Option<u64>
    ensures { IfSome result (SpellsNumber word.now) }
{
    let (first, rest) = word.split_first()?;
    if *first <= b'0' || *first > b'9' {
        return None;
    }
    more_digits(*first - b'0', rest)
}

/// The number of a first digit that isn't 0, and of the digits after it.
fn more_digits(first: u8, rest: &[u8]) -> Option<u64>
    requires { 1 ≤ first × first ≤ 9 }
    ensures { IfSome result (SpellsNumber ((48 + first) ∷ rest.now)) }
{
    let mut n = u64::from(first);
    for byte in rest {
        if !byte.is_ascii_digit() {
            return None;
        }
        n = n.checked_mul(10)?.checked_add(u64::from(*byte - b'0'))?;
    }
    Some(n)
}

/// The number that any word spells, by the digits that are its own.
fn parsed_number(word: &[u8]) -> Option<u64>
    ensures some { IfSome result (SpellsNumber word.now) }
    ensures none { IfNone result ((n : ℕ) → SpellsNumber word.now n → ⊥) }
{
    let n: u64 = str::from_utf8(word).ok()?.parse().ok()?;
    let mut buffer = Buffer::new();
    if buffer.format(n).as_bytes() == word {
        Some(n)
    } else {
        None
    }
}

/// Whether a word spells a number.
pub fn is_number(word: &[u8]) -> bool
    ensures { result ≡ is_number word.now }
{
    number(word).is_some()
}

/// The number that a word spells, where it is within its bounds.
pub fn number_within(word: &[u8], bounds: Bounds) -> Option<u64>
    ensures some { IfSome result (SpellsNumber word.now) }
    ensures within { IfSome result (IsWithin bounds) }
    ensures none { IfNone result ((n : ℕ) → SpellsNumber word.now n → IsWithin bounds n → ⊥) }
{
    let n = number(word)?;
    if is_within(n, bounds) { Some(n) } else { None }
}

/// Whether a number is within its bounds.
pub fn is_within(n: u64, bounds: Bounds) -> bool
    ensures { result ≡ is_within bounds n }
{
    match bounds {
        Bounds::Any => true,
        Bounds::Between { least, most } => u64::from(least) <= n && n <= u64::from(most),
        Bounds::PowerBetween { least, most } => {
            u64::from(least) <= n && n <= u64::from(most) && n.is_power_of_two()
        }
    }
}
