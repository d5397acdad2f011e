// What follows from the definitions, over plain lists.

ghost use Rattle.std.specs.Prelude.{◌≡◌, ℕ, ◌+◌, ◌*◌, ◌%◌, ◌<◌, ◌≤◌, ◌⊎◌, List, length};
ghost use Rattle.vio_bytes.specs.Place.{put_at};
ghost use Rattle.vio_bytes.specs.Range.{range_at};
ghost use Rattle.dring.specs.Slots.{OneSlot, slot_bytes};

/// A write within a slot changes that slot alone. It is a write to its bytes, and no other slot of the ring changes,
/// nor any byte after the ring.
pub fn one_slot_at_a_time()
    ensures alone { (size n k at : ℕ) (piece memory : List ℕ) → k < n → at + length piece ≤ size → size * n ≤ length memory
        → OneSlot size n k memory (put_at (size * k + at) piece memory) }
    ensures there { (size n k at : ℕ) (piece memory : List ℕ) → k < n → at + length piece ≤ size → size * n ≤ length memory
        → slot_bytes size k (put_at (size * k + at) piece memory) ≡ put_at at piece (slot_bytes size k memory) }
    ensures behind { (size n k at p w : ℕ) (piece memory : List ℕ) → k < n → at + length piece ≤ size → size * n ≤ length memory → size * n ≤ p
        → range_at p w (put_at (size * k + at) piece memory) ≡ range_at p w memory }
{}

/// Numbers within one lap of a ring have slots of their own, and the slots of numbers within one lap
/// stay where another's slot is changed.
pub fn one_lap_of_a_ring()
    ensures apart { (n a b : ℕ) → a ≤ b → b < a + n → a % n ≡ b % n → a ≡ b }
    ensures stays { (size n d k lo hi j : ℕ) (memory new : List ℕ)
        → OneSlot size n (k % n) memory new → d ≤ lo → hi ≤ d + n → d ≤ k → k < d + n → (k < lo) ⊎ (hi ≤ k)
        → lo ≤ j → j < hi → slot_bytes size (j % n) new ≡ slot_bytes size (j % n) memory }
{}
