//! A fast cube root, which Cardano's formula uses: fast_cbrt of shared/polynomial.rs.
ghost use Rattle.std.specs.Prelude.{◌≡◌, not, T};
ghost use Rattle.std.specs.Float.Ieee.{is_nan};
ghost use Rattle.cubic_parts.specs.FastCbrt.{cbrt_start, cbrt_step, cbrt_steps, fast_cbrt};

use ieee754::abs::abs;
use ieee754::cbrt::cbrt;
use ieee754::copysign::copysign;
use ieee754::is_finite::is_finite;
use ieee754_parts::third::third;

// The first guess: the exponent divided by three, by way of the bit pattern.
#[tactic(auto, unfolding(crate::specs::FastCbrt::cbrt_start))]
fn cbrt_start(magnitude: f64) -> f64
    requires { T (not (is_nan magnitude)) }
    ensures { result ≡ cbrt_start magnitude }
{
    f64::from_bits(third(magnitude.to_bits()) + 0x2A9F_7625_3119_D328)
}

// A better guess, unless the cube leaves the range.
#[tactic(auto, unfolding(crate::specs::FastCbrt::cbrt_step))]
fn cbrt_step(magnitude: f64, root: f64) -> Option<f64>
    ensures { result ≡ (cbrt_step magnitude root).value }
{
    let cube = root * root * root;
    if !is_finite(cube) || cube == 0.0 {
        return None;
    }
    let ratio = magnitude / cube;
    Some(root * ((1.0 + 2.0 * ratio) / (2.0 + ratio)))
}

// Two steps from the first guess; where one stops, the exact cube root.
#[tactic(auto, unfolding(crate::specs::FastCbrt::cbrt_steps))]
fn cbrt_steps(value: f64, magnitude: f64) -> f64
    requires { T (not (is_nan magnitude)) }
    ensures { result ≡ (cbrt_steps value magnitude).value }
{
    let Some(first) = cbrt_step(magnitude, cbrt_start(magnitude)) else {
        return cbrt(value);
    };
    let Some(second) = cbrt_step(magnitude, first) else {
        return cbrt(value);
    };
    copysign(second, value)
}

/// The cube root of `value`: a zero's is plus zero, and a subnormal's, an infinity's or a NaN's is
/// the library's.
#[tactic(auto, unfolding(crate::specs::FastCbrt::fast_cbrt))]
pub fn fast_cbrt(value: f64) -> f64
    ensures { result ≡ (fast_cbrt value).value }
{
    if value == 0.0 {
        return 0.0;
    }
    let magnitude = abs(value);
    if !is_finite(magnitude) || magnitude < f64::MIN_POSITIVE {
        return cbrt(value);
    }
    cbrt_steps(value, magnitude)
}
