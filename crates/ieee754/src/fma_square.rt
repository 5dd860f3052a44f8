//! Rust's f64::mul_add of two equal factors: x * x + z, rounded once, as `fma` has it.
//!
//! A quadratic's discriminant is such a sum, and mostly its parts' exponents are near to each
//! other. Then both are whole numbers of two words over one power of two, and no digit is cut off.
ghost use Rattle.std.specs.Prelude.{◌≡◌, T};
ghost use Rattle.std.specs.Float.Ieee.Scale.{finite};
ghost use Rattle.ieee754.specs.Fma.{fma};

use crate::fma::fma;
use crate::is_finite::is_finite;
use ieee754_parts::sum::sum_aligned;
use ieee754_parts::unpack::unpack;
use ieee754_parts::wide::{product, shift_left};

// At finite numbers. Over 2^2166 the square is a.sig * a.sig times 2^(square + 18), and z is c.sig
// times 2^(addend + 18).
fn fma_square_finite(x: f64, z: f64) -> f64
    requires x_finite { T (finite x) }
    requires z_finite { T (finite z) }
    ensures { result ≡ fma x x z }
{
    let a = unpack(x);
    let c = unpack(z);
    let m = a.sig;
    let square = 2 * a.exp;
    let addend = c.exp + 1074;
    if (square < addend) & (addend < square + 64) {
        let moved = shift_left(c.sig, addend - square);
        return sum_aligned(false, product(m, m), c.negative, moved, square + 18);
    }
    fma(x, x, z)
}

pub fn fma_square(x: f64, z: f64) -> f64
    ensures { result ≡ fma x x z }
{
    if is_finite(x) & is_finite(z) {
        return fma_square_finite(x, z);
    }
    fma(x, x, z)
}
