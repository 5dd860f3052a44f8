//! Rust's f64::abs.
ghost use Rattle.std.specs.Prelude.{◌≡◌};
ghost use Rattle.ieee754.specs.Magnitude as Magnitude;

/// x with the sign cleared: 0 - x has it so where x is not above zero, and a NaN has none.
/// Compilers make one instruction of this.
pub fn abs(x: f64) -> f64
    ensures { result ≡ Magnitude.abs x }
{
    if x <= 0.0 { 0.0 - x } else { x }
}
