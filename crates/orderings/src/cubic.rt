//! The coefficients of the cubic whose root gives the singular matrix (solve_ordered and
//! leading_cubic_condition of lambdatwist.rs), and the test by which an ordering of the points is
//! unusable: solve_ordered, up to the retry.
ghost use Rattle.std.specs.Prelude.{◌≡◌};
ghost use Rattle.orderings.specs.Cubic.{cubic_coefficients, coefficient_scale, is_unusable};

use crate::angles::SquaredSines;
use frames::squared_edges::SquaredEdges;
use ieee754::abs::abs;
use ieee754::is_finite::is_finite;
use ieee754::max::max;

#[derive(Clone, Copy)]
pub struct Coefficients {
    pub cubic3: f64,
    pub cubic2: f64,
    pub cubic1: f64,
    pub cubic0: f64,
}

#[tactic(auto, unfolding(crate::specs::Cubic::cubic_coefficients))]
pub fn cubic_coefficients(squares: SquaredEdges, sines: SquaredSines) -> Coefficients
    ensures { result ≡ (cubic_coefficients squares sines).value }
{
    let SquaredEdges { a01, a02, a12 } = squares;
    let SquaredSines {
        triple,
        s20,
        s12,
        s01,
    } = sines;
    Coefficients {
        cubic3: a02 * (a12 * s20 - a02 * s12),
        cubic2: 2.0 * triple * a12 * a02 + a02 * (2.0 * a01 + a02) * s12 + a12 * (a12 - a01) * s20,
        cubic1: a12 * (a02 - a12) * s01 - a01 * a01 * s12 - 2.0 * a01 * (triple * a12 + a02 * s12),
        cubic0: a01 * (a01 * s12 - a12 * s01),
    }
}

#[tactic(auto, unfolding(crate::specs::Cubic::coefficient_scale))]
pub fn coefficient_scale(c: Coefficients) -> f64
    ensures { result ≡ coefficient_scale c }
{
    let scale = max(abs(c.cubic3), abs(c.cubic2));
    max(max(scale, abs(c.cubic1)), abs(c.cubic0))
}

#[tactic(auto, unfolding(crate::specs::Cubic::is_unusable))]
pub fn is_unusable(c: Coefficients) -> bool
    ensures { result ≡ (is_unusable c).value }
{
    let scale = coefficient_scale(c);
    !is_finite(scale) || abs(c.cubic3) <= scale * f64::EPSILON * 64.0
}
