//! Rounding to the nearest double, a tie to the even one. Numbers are over 2^2166, where the
//! smallest double is 2^1092.
ghost use Rattle.std.specs.Prelude.{◌≡◌, ◌*◌, ◌^◌, ◌<◌, ◌≤◌};
ghost use Rattle.std.specs.Float.Ieee.Nearest.{closest};
ghost use Rattle.ieee754_parts.specs.Rounded.{rounded};
ghost use Rattle.ieee754_parts.specs.Value.{value};

use crate::normal::normalise_wide;
use crate::pack::pack;
use crate::wide::{Wide, jam};

// w / 2^11 to the nearest whole number, a tie to the even one: a rest of more than a half carries,
// and one of a half does where the last digit kept is odd.
fn nearest(w: u64) -> u64
    ensures { result ≡ closest w (2 ^ 11) }
{
    let whole = w / 0x800;
    whole + (w % 0x800 + whole % 2 + 0x3ff) / 0x800
}

// w * 2^exp / 2^2166, rounded: a word has 11 digits more than a significand, and 2^11 * 2^1081 is
// the smallest double. Below that it says which digits are kept. (The bound on exp keeps sums from
// wrapping.)
pub(crate) fn round_pack(negative: bool, w: u64, exp: u64) -> f64
    requires { (exp < 5000) × (1081 < exp → 2 ^ 63 ≤ w) }
    ensures { result ≡ rounded negative (w * 2 ^ exp) }
{
    if exp < 1081 {
        pack(negative, nearest(jam(w, 1081 - exp)), 0)
    } else {
        pack(negative, nearest(w), exp - 1081)
    }
}

// v * 2^exp / 2^2166, rounded.
pub(crate) fn round_wide(negative: bool, v: Wide, exp: u64) -> f64
    requires { (64 ≤ exp) × (exp < 4900) }
    ensures { result ≡ rounded negative (value v * 2 ^ exp) }
{
    let w = normalise_wide(v, exp);
    round_pack(negative, w.sig, w.exp)
}
