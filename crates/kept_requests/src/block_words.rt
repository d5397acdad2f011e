ghost use Rattle.std.specs.Prelude.{◌≡◌, ◌≤◌, ◌<◌, ◌↔◌, length, replicate, true, false};
ghost use Rattle.kept_requests.specs.BlockWord.{repeats, word_length};

/// The lengths of words that are shorter than a block.
const WORD_LENGTHS: [usize; 9] = [1, 2, 4, 8, 16, 32, 64, 128, 256];

/// Whether a block repeats its first n bytes: moved by n places it is the same.
fn is_repeated(block: &[u8; 512], n: usize) -> bool
    requires some { 0 < n }
    requires within { n ≤ 512 }
    ensures { result ≡ repeats block.now n }
{
    begins_again(block, n) && are_same(&block[n..], &block[..512 - n])
}

/// Whether all bytes of a block are one: of the blocks that are read back most are so.
fn is_one_byte(block: &[u8; 512]) -> bool
    ensures { result ≡ repeats block.now 1 }
{
    begins_again(block, 1) && are_all(block, block[0])
}

/// Whether each byte is this one. Each is looked at, as in `are_same`.
fn are_all(bytes: &[u8], first: u8) -> bool
    ensures { (result ≡ true) ↔ (bytes.now ≡ replicate (length bytes.now) first) }
{
    let mut all = true;
    for byte in bytes {
        all &= *byte == first;
    }
    all
}

/// How many bytes are compared first: runs of bytes that differ mostly do near their front.
const FEW: usize = 32;

/// Whether a block, moved by n places, begins as before. It repeats no word of n bytes where it doesn't.
fn begins_again(block: &[u8; 512], n: usize) -> bool
    requires some { 0 < n }
    requires within { n ≤ 512 }
    ensures { result ≡ false → repeats block.now n ≡ false }
{
    let few = FEW.min(512 - n);
    are_same(&block[n..n + few], &block[..few])
}

/// Whether two runs of bytes are the same. Each byte is looked at, also after one that differs, so that many can be at
/// once.
fn are_same(a: &[u8], b: &[u8]) -> bool
    requires { length a.now ≡ length b.now }
    ensures { (result ≡ true) ↔ (a.now ≡ b.now) }
{
    let mut all = true;
    for k in 0..a.len() {
        all &= a[k] == b[k];
    }
    all
}

/// The length of the shortest word that a block repeats.
pub fn shortest_word(block: &[u8; 512]) -> usize
    ensures least { result ≡ word_length block.now }
    ensures repeats { repeats block.now result ≡ true }
    ensures some { 0 < result }
    ensures within { result ≤ 512 }
{
    if is_one_byte(block) {
        return 1;
    }
    for n in WORD_LENGTHS {
        if is_repeated(block, n) {
            return n;
        }
    }
    512
}
