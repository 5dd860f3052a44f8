//! Rust's f64::is_finite.
ghost use Rattle.std.specs.Prelude.{◌≡◌};
ghost use Rattle.std.specs.Float.Ieee.Scale.{finite};

/// Neither a NaN nor an infinity.
pub fn is_finite(x: f64) -> bool
    ensures { result ≡ finite x }
{
    let infinity = 1.0 / 0.0;
    if x < infinity { -infinity < x } else { false }
}
