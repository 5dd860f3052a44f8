//! What solve_ordered (lambdatwist.rs) measures of the points and bearings in the order in which
//! they are solved, and the cubic's coefficients of that.
ghost use Rattle.std.specs.Prelude.{◌≡◌};
ghost use Rattle.orderings.specs.Measure.{measure_with, measure, measured_cubic};

use crate::angles::{Factors, bearing_factors, cosines, squared_sines};
use crate::basis::Source;
use crate::cubic::{Coefficients, cubic_coefficients};
use crate::edges::{edge_vectors, squared_edges};
use frames::bearings::Bearings;
use frames::cosines::Cosines;
use frames::squared_edges::SquaredEdges;
use frames::world::World;
use linalg::vector3::Vector3;

/// The first point, where the inverse basis comes from, the squared edges, the bearings, their
/// cosines and the factors of these.
#[derive(Clone, Copy)]
pub struct Measured {
    pub p0: Vector3,
    pub source: Source,
    pub squares: SquaredEdges,
    pub bearings: Bearings,
    pub cosines: Cosines,
    pub factors: Factors,
}

/// By squared edges that are at hand.
#[tactic(auto, unfolding(crate::specs::Measure::measure_with))]
pub fn measure_with(
    p0: Vector3,
    source: Source,
    squares: SquaredEdges,
    bearings: Bearings,
) -> Measured
    ensures { result ≡ (measure_with p0 source squares bearings).value }
{
    let cosines = cosines(bearings);
    Measured {
        p0,
        source,
        squares,
        bearings,
        cosines,
        factors: bearing_factors(cosines),
    }
}

#[tactic(auto, unfolding(crate::specs::Measure::measure))]
pub fn measure(world: World, bearings: Bearings) -> Measured
    ensures { result ≡ (measure world bearings).value }
{
    let edges = edge_vectors(world);
    let source = Source::Made(edges.d01, edges.d02);
    measure_with(world.p0, source, squared_edges(edges), bearings)
}

#[tactic(auto, unfolding(crate::specs::Measure::measured_cubic))]
pub fn measured_cubic(measured: Measured) -> Coefficients
    ensures { result ≡ (measured_cubic measured).value }
{
    cubic_coefficients(measured.squares, squared_sines(measured.cosines))
}
