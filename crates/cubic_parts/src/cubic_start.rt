//! The root of a cubic from which Newton's method starts: polished_cubic_root of
//! shared/polynomial.rs, from `let b3` on.
ghost use Rattle.std.specs.Prelude.{◌≡◌};
ghost use Rattle.cubic_parts.specs.CubicStart.{cubic_value, turning_offset, left_start};
ghost use Rattle.cubic_parts.specs.CubicStart.{right_start, turning_start, start_root};

use crate::Monic;
use crate::cardano::cardano_single_real;
use ieee754::sqrt::sqrt;

/// The cubic's value at `root`.
#[tactic(auto, unfolding(crate::specs::CubicStart::cubic_value))]
pub fn cubic_value(m: Monic, root: f64) -> f64
    ensures { result ≡ (cubic_value m root).value }
{
    ((root + m.b) * root + m.c) * root + m.d
}

// How far outside a turning point the root lies, by the parabola that the cubic is like there.
#[tactic(auto, unfolding(crate::specs::CubicStart::turning_offset))]
fn turning_offset(m: Monic, turning: f64, value: f64) -> Option<f64>
    ensures { result ≡ (turning_offset m turning value).value }
{
    let denominator = 3.0 * turning + m.b;
    let radicand = -value / denominator;
    if denominator == 0.0 || radicand < 0.0 {
        return None;
    }
    Some(sqrt(radicand))
}

// To the left of the left turning point.
#[tactic(auto, unfolding(crate::specs::CubicStart::left_start))]
fn left_start(m: Monic, left: f64, left_value: f64) -> Option<f64>
    ensures { result ≡ (left_start m left left_value).value }
{
    Some(left - turning_offset(m, left, left_value)?)
}

// To the right of the right turning point.
#[tactic(auto, unfolding(crate::specs::CubicStart::right_start))]
fn right_start(m: Monic, turning_span: f64) -> Option<f64>
    ensures { result ≡ (right_start m turning_span).value }
{
    let right = (-m.b + turning_span) / 3.0;
    Some(right + turning_offset(m, right, cubic_value(m, right))?)
}

// Outside the turning point beyond which there is a root.
#[tactic(auto, unfolding(crate::specs::CubicStart::turning_start))]
fn turning_start(m: Monic) -> Option<f64>
    ensures { result ≡ (turning_start m).value }
{
    let turning_span = sqrt(m.b * m.b - 3.0 * m.c);
    let left = (-m.b - turning_span) / 3.0;
    let left_value = cubic_value(m, left);
    if left_value > 0.0 {
        left_start(m, left, left_value)
    } else {
        right_start(m, turning_span)
    }
}

/// Cardano's root where it is the only real one, and else a point outside a turning point, if there
/// are turning points.
#[tactic(auto, unfolding(crate::specs::CubicStart::start_root))]
pub fn start_root(m: Monic) -> Option<f64>
    ensures { result ≡ (start_root m).value }
{
    let Monic { b, c, d } = m;
    let b3 = b / 3.0;
    let p = c - b * b3;
    let q = d + b3 * (2.0 * b3 * b3 - c);
    let half_q = 0.5 * q;
    let discriminant = half_q * half_q + p * p * p / 27.0;
    if discriminant > 0.0 {
        return Some(cardano_single_real(p, half_q, discriminant) - b3);
    }
    if b * b >= 3.0 * c {
        turning_start(m)
    } else {
        Some(-b3)
    }
}
