//! Rust's f64::copysign.
ghost use Rattle.std.specs.Prelude.{◌≡◌};
ghost use Rattle.ieee754.specs.CopySign as CopySign;

use ieee754_parts::format::SIGN;

/// Whether the sign of y is set, of a zero too; a NaN has none.
pub fn negative(y: f64) -> bool
    ensures { result ≡ CopySign.negative y }
{
    if y.is_nan() {
        false
    } else {
        SIGN <= y.to_bits()
    }
}

/// The magnitude of x with the sign of y, by their patterns: a choice between the two signs would
/// be a branch that no predictor foresees.
pub fn copysign(x: f64, y: f64) -> f64
    ensures { result ≡ CopySign.copysign x y }
{
    if x.is_nan() {
        return x;
    }
    let magnitude = x.to_bits() % SIGN;
    if y.is_nan() {
        return f64::from_bits(magnitude);
    }
    f64::from_bits(magnitude + y.to_bits() / SIGN * SIGN)
}
