//! Rust's f64::cbrt, C's cbrt, correctly rounded.
//!
//! The digits of the root are those of the whole number nearest to a cube root, which integers find
//! (crate `ieee754_roots`).
ghost use Rattle.std.specs.Prelude.{◌≡◌, ◌*◌, ◌^◌, ◌≤◌, ◌<◌, T};
ghost use Rattle.std.specs.Float.{binary64};
ghost use Rattle.std.specs.Float.Ieee.Scale.{finite};
ghost use Rattle.ieee754.specs.Root as Root;

use crate::is_finite::is_finite;
use ieee754_parts::normal::normalise;
use ieee754_parts::pack::pack_finite;
use ieee754_parts::third::third;
use ieee754_parts::unpack::unpack;
use ieee754_roots::cbrt::nearest;

// The cube root of ±sig * 2^exp / 2^1126. In cubes of the smallest double that is
// sig * 2^y * 2^104.
fn scaled(negative: bool, sig: u64, exp: u64) -> f64
    requires { (2 ^ 52 ≤ sig) × (sig < 2 ^ 53) × (exp < 2098) }
    ensures { result ≡ Root.round_root 3 binary64 negative (sig * 2 ^ exp) (2 ^ 1126) }
{
    let y = exp + 1992;
    let root_exp = third(y);
    // y - 3 * root_exp is y modulo 3
    pack_finite(negative, nearest(sig, y - 3 * root_exp), root_exp)
}

// The cube root of a finite x: it has the sign of x, that of a zero too.
fn cbrt_finite(x: f64) -> f64
    requires { T (finite x) }
    ensures { result ≡ Root.cbrt x }
{
    let a = unpack(x);
    if a.sig == 0 {
        return x;
    }
    let n = normalise(a.sig, a.exp);
    scaled(a.negative, n.sig, n.exp)
}

/// The cube root of x. An infinity and a NaN are their own.
pub fn cbrt(x: f64) -> f64
    ensures { result ≡ Root.cbrt x }
{
    if is_finite(x) { cbrt_finite(x) } else { x }
}
