// The last byte of a number: seven bits, or fewer where the number has fewer left.
ghost use Rattle.std.specs.Prelude.{◌≡◌, ℕ, ◌<◌, ◌≤◌, ◌^◌, IfSome, MatchOption};
ghost use Rattle.wasm_frame.specs.Leb128.{Last, last_value};

use super::Sign;

/// The number of `width` bits that a last byte spells. `None` where its bits past `width` are not as they must be.
#[tactic(auto, using(crate::proofs::Powers::halves))]
pub fn last_value(sign: Sign, width: u32, byte: u8) -> Option<u64>
    requires some { 0 < width }
    requires fits { width ≤ 64 }
    requires last { byte < 128 }
    ensures value { result ≡ last_value sign width byte }
    ensures range { IfSome result (λ n. n < 2 ^ width) }
{
    let half = 1u64 << (width - 1);
    let bits = u64::from(byte);
    match sign {
        Sign::Unsigned => (bits / 2 < half).then_some(bits),
        Sign::Signed => {
            if bits < 64 {
                return (bits < half).then_some(bits);
            }
            let below = 127 - bits;
            if below < half {
                Some(half + (half - 1 - below))
            } else {
                None
            }
        }
    }
}

/// The last byte that spells a number of `width` bits alone, if one does.
pub fn last_byte(sign: Sign, width: u32, bits: u64) -> Option<u8>
    requires some { 0 < width }
    requires fits { width ≤ 64 }
    requires range { bits < 2 ^ width }
    ensures { MatchOption result ((b : ℕ) → Last sign width b bits → ⊥) (λ b. Last sign width b bits) }
{
    let half = 1u64 << (width - 1);
    match sign {
        Sign::Unsigned => (bits < 128).then(|| bits as u8),
        Sign::Signed => {
            if bits < half {
                return (bits < 64).then(|| bits as u8);
            }
            let below = half - 1 - (bits - half);
            (below < 64).then(|| 127 - below as u8)
        }
    }
}
