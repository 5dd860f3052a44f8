//! Rust's f64::max, with plus zero of two zeros of opposite sign.
ghost use Rattle.std.specs.Prelude.{◌≡◌, cond};
ghost use Rattle.std.specs.Float.Ieee.{lt};
ghost use Rattle.ieee754.specs.Maximum as Maximum;

use crate::copysign::negative;

// y where it is above x, else x: one instruction.
fn larger(x: f64, y: f64) -> f64
    ensures { result ≡ cond (lt x y) y x }
{
    if x < y { y } else { x }
}

/// The larger of x and y, or the one that is no NaN. The common case is asked for first.
pub fn max(x: f64, y: f64) -> f64
    ensures { result ≡ Maximum.max x y }
{
    if (x < y) | (y < x) {
        return larger(x, y);
    }
    if x.is_nan() {
        return y;
    }
    if y.is_nan() {
        return x;
    }
    if negative(x) { y } else { x }
}
