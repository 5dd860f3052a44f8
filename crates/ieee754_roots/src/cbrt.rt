//! The whole number nearest to a cube root.
//!
//! A guess at the root of the significand, made with floats, is settled in integers, and where
//! neither it nor a neighbour is right the root is found by halving an interval. So nothing is
//! claimed of the floats.
ghost use Rattle.std.specs.Prelude.{◌≡◌, ◌*◌, ◌^◌, ◌≤◌, ◌<◌, IfSome};
ghost use Rattle.ieee754_roots.specs.Nearest.{IsNearest, cube_top};

use ieee754_parts::format::LEADING;
use ieee754_parts::third::third;
use ieee754_parts::wide::{Wide, add_wide, product, shift_right};

// The cube of h, divided by 2^107: the square's digits below 2^54 and those above are multiplied by
// h one after the other.
fn cube_top(h: u64) -> u64
    requires { h < 2 ^ 54 }
    ensures { result ≡ cube_top h }
{
    let square = product(h, h);
    let low = product(square.lo % 0x40_0000_0000_0000, h);
    let high = product(shift_right(square, 54), h);
    let carry = Wide {
        hi: 0,
        lo: shift_right(low, 54),
    };
    shift_right(add_wide(high, carry), 53)
}

// The whole number nearest to the cube root of n * 2^104, which has 53 digits. It is above `low`
// and at most `high`: the root is above `low` + 1/2 and below `high` + 1/2.
fn by_halving(n: u64) -> u64
    requires { (2 ^ 52 ≤ n) × (n < 2 ^ 55) }
    ensures { IsNearest 3 (n * 2 ^ 104) result }
{
    let mut low = 0xf_ffff_ffff_ffff;
    let mut high = 0x20_0000_0000_0000;
    while 1 < high - low {
        let middle = (low + high) / 2;
        if cube_top(2 * middle + 1) < n {
            low = middle;
        } else {
            high = middle;
        }
    }
    high
}

// The whole number nearest to the cube root of n * 2^104, if that is q or a neighbour of q.
fn settled(n: u64, q: u64) -> Option<u64>
    requires { (2 ^ 52 ≤ q) × (q < 0x1f_ffff_ffff_ffff) }
    ensures { IfSome result (IsNearest 3 (n * 2 ^ 104)) }
{
    if cube_top(2 * q + 1) < n {
        if n <= cube_top(2 * q + 3) {
            Some(q + 1)
        } else {
            None
        }
    } else if cube_top(2 * q - 1) < n {
        Some(q)
    } else if cube_top(2 * q - 3) < n {
        Some(q - 1)
    } else {
        None
    }
}

// A guess at the cube root of m * 2^t * 2^104: the reciprocal of the root of x = m * 2^t / 2^52
// from x's bit pattern, mended by Newton's method, then x times its square, mended once more.
// Nothing is claimed of it but its range.
fn guess(m: u64, t: u64) -> u64
    requires { (2 ^ 52 ≤ m) × (m < 2 ^ 53) × (t < 3) }
    ensures { (2 ^ 52 ≤ result) × (result < 0x1f_ffff_ffff_ffff) }
{
    let bits = (1022 + t) * LEADING + m;
    let x = f64::from_bits(bits);
    let x_third = x * 0.3333333333333333;
    let mut y = f64::from_bits(0x553e_f000_0000_0000 - third(bits));
    y = y * (1.3333333333333333 - x_third * y * (y * y));
    y = y * (1.3333333333333333 - x_third * y * (y * y));
    y = y * (1.3333333333333333 - x_third * y * (y * y));
    let r = x * (y * y);
    let root = r + (x - r * r * r) * (y * y * 0.3333333333333333);
    if root < 4.0 {
        let q = root.to_bits() % LEADING + LEADING;
        if q < 0x1f_ffff_ffff_ffff {
            return q;
        }
    }
    LEADING
}

/// The whole number nearest to the cube root of m * 2^t * 2^104.
pub fn nearest(m: u64, t: u64) -> u64
    requires { (2 ^ 52 ≤ m) × (m < 2 ^ 53) × (t < 3) }
    ensures { IsNearest 3 (m * 2 ^ t * 2 ^ 104) result }
{
    let n = m << t;
    match settled(n, guess(m, t)) {
        Some(q) => q,
        None => by_halving(n),
    }
}
