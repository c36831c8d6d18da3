// What holds of the spellings of numbers, whatever reads or writes them.
ghost use Rattle.std.specs.Prelude.{◌≡◌, ℕ, ◌+◌, ◌*◌, ◌<◌, ◌^◌, List, ◌++◌, length, ℤ};
ghost use Rattle.wasm_frame.specs.declared.leb128.Sign.{Sign};
ghost use Rattle.wasm_frame.specs.Leb128.{Leb, IsShortest};
ghost use Rattle.wasm_frame.specs.Signed.{bits_of, FitsBits};

/// Of two spellings in front of the same bytes each is the other, so no spelling begins another of its kind, and
/// none stands for two numbers.
pub fn one_spelling_in_front()
    ensures { (sign : Sign) (w : ℕ) (t u x y : List ℕ) (m n : ℕ) → 0 < w → Leb sign w t m → Leb sign w u n →
        t ++ x ≡ u ++ y → (t ≡ u) × (m ≡ n) }
{}

/// A spelling stands for a number of so many bits, and has a byte for each seven of them at most.
pub fn spelled_in_range()
    ensures range { (sign : Sign) (w : ℕ) (t : List ℕ) (n : ℕ) → 0 < w → Leb sign w t n → n < 2 ^ w }
    ensures length { (sign : Sign) (w : ℕ) (t : List ℕ) (n : ℕ) → 0 < w → Leb sign w t n → 7 * length t < w + 7 }
{}

/// Each number of so many bits has a shortest spelling.
pub fn shortest_exists()
    ensures { (sign : Sign) (w n : ℕ) → 0 < w → n < 2 ^ w → (t : List ℕ) × IsShortest sign w t n }
{}

/// Signed numbers of so many bits with the same bits are the same.
pub fn bits_tell_numbers_apart()
    ensures { (w : ℕ) (y z : ℤ) → 0 < w → FitsBits w y → FitsBits w z → bits_of w y ≡ bits_of w z → y ≡ z }
{}
