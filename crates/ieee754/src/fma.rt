//! Rust's f64::mul_add, IEEE 754's fusedMultiplyAdd: x * y + z, rounded once.
//!
//! A finite number is ±sig * 2^exp / 2^1074, sig and exp natural numbers (`unpack`). The exact
//! product and the addend are two-word numbers (`wide`), each times a power of two, over the one
//! denominator 2^2166. Mostly their leading words decide the rounded sum (`leading`). Elsewhere the
//! one with the lower exponent is brought to the other's, and the digits that this drops leave
//! their mark in the last digit kept, the sticky bit (`jam`). They are added as two-word numbers
//! (`sum`), and the sum is rounded once (`round`). These are the parts in crate `ieee754_parts`.
ghost use Rattle.std.specs.Prelude.{◌≡◌, ◌+◌, ◌*◌, ◌^◌, ◌≤◌, ◌<◌, T};
ghost use Rattle.std.specs.Float.Ieee.Scale.{finite};
ghost use Rattle.ieee754.specs.Fma.{fma};
ghost use Rattle.ieee754_parts.specs.Value.{value};

use crate::is_finite::is_finite;
use ieee754_parts::leading::add_leading;
use ieee754_parts::unpack::unpack;
use ieee754_parts::wide::{Wide, product};

// The exponent e of a product p, and 0 where p is below 2^64: such a product is that of two
// subnormal numbers, whose exponent is 0, or is zero.
fn product_exp(p: Wide, e: u64) -> u64
    ensures { (value p < 2 ^ 64 → result ≡ 0) × (2 ^ 64 ≤ value p → result ≡ e) }
{
    if p.hi == 0 { 0 } else { e }
}

// x * y + z at finite numbers. Each factor's significand is moved up by 9 digits, so that the
// product is over 2^(1074 + 9 + 1074 + 9).
fn fma_finite(x: f64, y: f64, z: f64) -> f64
    requires x_finite { T (finite x) }
    requires y_finite { T (finite y) }
    requires z_finite { T (finite z) }
    ensures { result ≡ fma x y z }
{
    let a = unpack(x);
    let b = unpack(y);
    let p = product(a.sig * 512, b.sig * 512);
    let exp = product_exp(p, a.exp + b.exp);
    add_leading(a.negative != b.negative, p, exp, unpack(z))
}

/// x * y + z, rounded once. Where a factor is an infinity or a NaN, the product is one, and the
/// machine's operators round nothing.
pub fn fma(x: f64, y: f64, z: f64) -> f64
    ensures { result ≡ fma x y z }
{
    if is_finite(x) {
        if is_finite(y) {
            if is_finite(z) {
                return fma_finite(x, y, z);
            }
            return z;
        }
    }
    x * y + z
}
