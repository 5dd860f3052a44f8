//! The rounded sum of two signed two-word numbers, over 2^2166.
ghost use Rattle.std.specs.Prelude.{◌≡◌, ◌+◌, ◌*◌, ◌^◌, ◌<◌, ◌≤◌};
ghost use Rattle.ieee754_parts.specs.Rounded.{summed, IsProduct};
ghost use Rattle.ieee754_parts.specs.Unpacked.{IsSignificand};
ghost use Rattle.ieee754_parts.specs.Value.{value};

use crate::round::round_wide;
use crate::unpack::Unpacked;
use crate::wide::{Wide, add_wide, jam_wide, less_wide, sub_wide};

/// ±a * 2^exp / 2^2166 + ±b * 2^exp / 2^2166, rounded. A sum of zero is -0 only where both are
/// negative.
pub fn sum_aligned(a_negative: bool, a: Wide, b_negative: bool, b: Wide, exp: u64) -> f64
    requires { (a.hi + b.hi + 1 < 2 ^ 64) × (64 ≤ exp) × (exp < 4900) }
    ensures { result ≡ summed a_negative (value a * 2 ^ exp) b_negative (value b * 2 ^ exp) }
{
    if a_negative == b_negative {
        round_wide(a_negative, add_wide(a, b), exp)
    } else if less_wide(a, b) {
        round_wide(b_negative, sub_wide(b, a), exp)
    } else {
        round_wide(a_negative & less_wide(b, a), sub_wide(a, b), exp)
    }
}

// ±p * 2^p_exp / 2^2166 + c, rounded. The addend c over 2^2166 is c.sig * 2^9 in the upper word,
// times 2^(c.exp + 1019), since 9 + 64 + 1019 is 1092. The one with the lower exponent is brought
// to the other's. It loses digits only where they are too small to be seen, or where the other is
// larger by far.
pub(crate) fn add_scaled(negative: bool, p: Wide, p_exp: u64, c: Unpacked) -> f64
    requires { IsProduct (value p) p_exp × IsSignificand c.sig c.exp }
    ensures { result
        ≡ summed negative (value p * 2 ^ p_exp) c.negative (c.sig * 2 ^ c.exp * 2 ^ 1092) }
{
    let q = Wide {
        hi: c.sig * 512,
        lo: 0,
    };
    let q_exp = c.exp + 1019;
    if p_exp < q_exp {
        sum_aligned(negative, jam_wide(p, q_exp - p_exp), c.negative, q, q_exp)
    } else {
        sum_aligned(negative, p, c.negative, jam_wide(q, p_exp - q_exp), p_exp)
    }
}
