//! The rounded sum of a product and an addend by the leading word of each, where these decide it.
//!
//! What the words leave out moves their sum by less than two units of its last place. Where all
//! numbers so near to it round alike, that is the answer; elsewhere all digits are added
//! (`add_scaled`). Nothing here branches on the signs or on the order of the exponents, which no
//! predictor foresees.
ghost use Rattle.std.specs.Prelude.{◌≡◌, ◌+◌, ◌*◌, ◌/◌, ◌^◌, ◌<◌, IfSome, if◌then◌else◌};
ghost use Rattle.ieee754_parts.specs.Leading.{Settles};
ghost use Rattle.ieee754_parts.specs.Rounded.{summed, IsProduct};
ghost use Rattle.ieee754_parts.specs.Unpacked.{IsSignificand};
ghost use Rattle.ieee754_parts.specs.Value.{value};

use crate::format::SIGN;
use crate::normal::Scaled;
use crate::pack::pack;
use crate::sum::add_scaled;
use crate::unpack::Unpacked;
use crate::wide::{Wide, shift_right};

// 2^60: a word above it has 61 digits or more.
const LEAST: u64 = 0x1000_0000_0000_0000;

// 2^53: past the numbers of 53 digits.
const PAST: u64 = 0x20_0000_0000_0000;

// One of two words or signs.
fn choose<T: Copy>(first: bool, a: T, b: T) -> T
    ensures { result ≡ (if first then a else b) }
{
    if first { a } else { b }
}

// w / 2^k.
fn shift(w: u64, k: u64) -> u64
    ensures { result ≡ w / 2 ^ k }
{
    if k < 64 { w >> k } else { 0 }
}

// a + b where the signs are the same, else a - b, which is 2^63 or more where it is below 0,
// wrapped on purpose.
fn signed_sum(same: bool, a: u64, b: u64) -> u64
    requires { (a < 2 ^ 62) × (b < 2 ^ 62) }
    ensures { result < 2 ^ 63 → result + (if same then 0 else b) ≡ a + (if same then b else 0) }
{
    if same { a + b } else { a.wrapping_sub(b) }
}

// The multiple of 2^10 that is nearest to each number from w to w + m, over 2^10, if there is one
// and it has at most 53 digits.
fn nearest_to_all(w: u64, m: u64) -> Option<u64>
    requires { (w < 2 ^ 63) × (m < 2 ^ 9) }
    ensures { IfSome result
        (λ q. (q < 2 ^ 53) × (q * 2 ^ 10 < w + 2 ^ 9) × (w + m < q * 2 ^ 10 + 2 ^ 9)) }
{
    let q = (w + m + 0x200) / 0x400;
    (((w + 0x1ff) / 0x400 == q) & (q < PAST)).then_some(q)
}

// What all numbers from (sum - 1) * 2^exp to (sum + 2) * 2^exp, over 2^2166, round to. There is
// none where they do not round alike, or where that is not told: for a sum of few digits, which are
// too few to round, and one below the normal numbers.
fn settle(sum: u64, exp: u64) -> Option<Scaled>
    requires { exp < 4900 }
    ensures { IfSome result (Settles sum exp) }
{
    if (LEAST < sum) & (sum < SIGN) & (1083 < exp) {
        let low = sum - 1;
        let n = u64::from(low.leading_zeros()) - 1;
        let sig = nearest_to_all(low << n, 3 << n)?;
        Some(Scaled {
            sig,
            exp: exp - n - 1082,
        })
    } else {
        None
    }
}

/// ±p * 2^p_exp / 2^2166 + c, rounded. The product's leading word is p / 2^62, and the addend over
/// 2^2166 is c.sig * 2^9 times 2^(c.exp + 1083). The one with the higher exponent leads, and the
/// other is cut short to it.
pub fn add_leading(negative: bool, p: Wide, p_exp: u64, c: Unpacked) -> f64
    requires { IsProduct (value p) p_exp × IsSignificand c.sig c.exp }
    ensures { result
        ≡ summed negative (value p * 2 ^ p_exp) c.negative (c.sig * 2 ^ c.exp * 2 ^ 1092) }
{
    let a = shift_right(p, 62);
    let b = c.sig * 512;
    let a_exp = p_exp + 62;
    let b_exp = c.exp + 1083;
    let first = b_exp <= a_exp;
    let exp = choose(first, a_exp, b_exp);
    let rest = shift(choose(first, b, a), exp - choose(first, b_exp, a_exp));
    let sum = signed_sum(negative == c.negative, choose(first, a, b), rest);
    match settle(sum, exp) {
        Some(settled) => {
            let negative = choose(first, negative, c.negative);
            pack(negative, settled.sig, settled.exp)
        }
        None => add_scaled(negative, p, p_exp, c),
    }
}
