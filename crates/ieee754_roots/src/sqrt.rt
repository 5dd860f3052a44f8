//! The whole number nearest to a square root.
//!
//! A guess at the root of the significand, made with floats, is tested in integers, and where
//! neither it nor the next number is right the digits are found one by one. So nothing is claimed
//! of the floats. Crate `ieee754` has the machine's instruction in its place: nothing calls this.
ghost use Rattle.std.specs.Prelude.{◌≡◌, true, ◌*◌, ◌^◌, ◌≤◌, ◌<◌};
ghost use Rattle.ieee754_roots.specs.Nearest.{IsNearest};

use crate::start::half_reciprocal_root;
use ieee754_parts::format::{INFINITY, LEADING};
use ieee754_parts::wide::{Wide, product, word_difference};

// The whole number nearest to the root of n * 2^52, which has 53 digits. They are found one by one
// from the top: `root` is what the digits so far come to, `bit` the weight of the last of them, and
// `rest * bit` what is left of n * 2^52 once the square of `root` is taken off.
fn by_digits(n: u64) -> u64
    requires { (2 ^ 52 ≤ n) × (n < 2 ^ 54) }
    ensures { IsNearest 2 (n * 2 ^ 52) result }
{
    let mut root = LEADING;
    let mut bit = LEADING;
    let mut rest = n - LEADING;
    while 1 < bit {
        bit = bit / 2;
        rest = rest * 2;
        let step = root * 2 + bit;
        if step <= rest {
            rest = rest - step;
            root = root + bit;
        }
    }
    if root < rest { root + 1 } else { root }
}

// A guess at the root of x = m * 2^odd / 2^52: half the root's reciprocal, from a line, gives the
// root `a`; Newton's method mends both, and the root r once more by the rest x - r * r. That is
// computed in two parts, of which x - top * top, with the upper digits of `a`, is exact. So the
// guess is nearly always the nearest double, and else the one below. Nothing is claimed of it.
// (Both tests always pass; they are there because nothing is known of the floats: that `a` is no
// NaN, and that its pattern has no sign.)
fn guess(m: u64, odd: u64) -> f64
    requires { (2 ^ 52 ≤ m) × (m < 2 ^ 53) × (odd < 2) }
{
    let bits = (1022 + odd) * LEADING + m;
    let x = f64::from_bits(bits);
    let start = half_reciprocal_root(x, bits);
    let a = (x + x) * start;
    if a < 4.0 {
        let pattern = a.to_bits();
        if pattern < INFINITY {
            let top = f64::from_bits(pattern / 0x800_0000 * 0x800_0000);
            let c = 1.5 - a * start;
            let r = a * c;
            return r + ((x - top * top) - (r + top) * (r - top)) * (start * c);
        }
    }
    a
}

// Whether q is the whole number nearest to the root of n * 2^52. Where it is, n * 2^52 exceeds
// q * (q - 1) by 1 to 2 * q. A false says nothing.
fn is_nearest(n: u64, q: u64) -> bool
    requires { (n < 2 ^ 54) × (2 ^ 52 ≤ q) × (q ≤ 2 ^ 53) }
    ensures { result ≡ true → IsNearest 2 (n * 2 ^ 52) q }
{
    let low = n % 0x1000 * LEADING;
    let target = Wide {
        hi: n / 0x1000,
        lo: low,
    };
    match word_difference(target, product(q, q - 1)) {
        Some(rest) => (0 < rest) & (rest <= 2 * q),
        None => false,
    }
}

/// The whole number nearest to the root of m * 2^odd * 2^52. The guess is tested by a branch, so
/// that the result does not wait for the test.
pub fn nearest(m: u64, odd: u64) -> u64
    requires { (2 ^ 52 ≤ m) × (m < 2 ^ 53) × (odd < 2) }
    ensures { IsNearest 2 (m * 2 ^ odd * 2 ^ 52) result }
{
    let n = m << odd;
    let root = guess(m, odd);
    if root < 4.0 {
        let digits = root.to_bits() % LEADING + LEADING;
        if is_nearest(n, digits) {
            return digits;
        }
        let next = digits + 1;
        if is_nearest(n, next) {
            return next;
        }
    }
    by_digits(n)
}
