//! How large the leading coefficient of the cubic is beside the largest: leading_cubic_condition of
//! lambdatwist.rs.
ghost use Rattle.std.specs.Prelude.{◌≡◌};
ghost use Rattle.std.specs.List.{fold};
ghost use Rattle.ieee754.specs.Literal.{plus_zero};
ghost use Rattle.ieee754.specs.Magnitude.{abs};
ghost use Rattle.ieee754.specs.Maximum.{max};
ghost use Rattle.orderings.specs.Condition.{folded_scale, leading_share, condition_of_edges};
ghost use Rattle.orderings.specs.Condition.{leading_cubic_condition};

use crate::angles::{cosines, squared_sines};
use crate::cubic::{Coefficients, cubic_coefficients};
use crate::edges::{edge_vectors, squared_edges};
use frames::bearings::Bearings;
use frames::squared_edges::SquaredEdges;
use frames::world::World;
use ieee754::abs::abs;
use ieee754::is_finite::is_finite;
use ieee754::max::max;

/// The largest magnitude, from plus zero on.
fn largest(values: &[f64]) -> f64
    ensures { result ≡ fold (λ scale value. max scale (abs value)) plus_zero values.now }
{
    values
        .iter()
        .fold(0.0, |scale, value| max(scale, abs(*value)))
}

#[tactic(auto, unfolding(crate::specs::Condition::folded_scale))]
pub fn folded_scale(c: Coefficients) -> f64
    ensures { result ≡ folded_scale c }
{
    largest(&[c.cubic3, c.cubic2, c.cubic1, c.cubic0])
}

#[tactic(auto, unfolding(crate::specs::Condition::leading_share))]
pub fn leading_share(c: Coefficients) -> f64
    ensures { result ≡ (leading_share c).value }
{
    let scale = folded_scale(c);
    if scale == 0.0 || !is_finite(scale) {
        0.0
    } else {
        abs(c.cubic3) / scale
    }
}

/// By squared edges that are at hand.
#[tactic(auto, unfolding(crate::specs::Condition::condition_of_edges))]
pub fn condition_of_edges(squares: SquaredEdges, bearings: Bearings) -> f64
    ensures { result ≡ (condition_of_edges squares bearings).value }
{
    let sines = squared_sines(cosines(bearings));
    leading_share(cubic_coefficients(squares, sines))
}

#[tactic(auto, unfolding(crate::specs::Condition::leading_cubic_condition))]
pub fn leading_cubic_condition(world: World, bearings: Bearings) -> f64
    ensures { result ≡ (leading_cubic_condition world bearings).value }
{
    condition_of_edges(squared_edges(edge_vectors(world)), bearings)
}
