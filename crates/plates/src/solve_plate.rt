//! The solve with a plate: the solve of lambdatwist.rs by the stored squared edges, and in the
//! given ordering by the stored inverse basis.
ghost use Rattle.std.specs.Prelude.{◌≡◌};
ghost use Rattle.lambdatwist.specs.Solve.{solve_cubic};
ghost use Rattle.plates.specs.SolvePlate as SolvePlate;

use crate::ordering::{Permutation, best_ordering, ordered_edges, ordered_rays};
use crate::plate::Plate;
use crate::targets::target_of;
use frames::bearings::Bearings;
use frames::squared_edges::SquaredEdges;
use lambdatwist::slots::held;
use lambdatwist::solve::{Answer, if_kept, refused, solve_cubic};
use linalg::matrix3::Matrix3;
use orderings::basis::Source;
use orderings::cubic::{Coefficients, is_unusable};
use orderings::measured::{Measured, measure_with, measured_cubic};
use p3p_common::input::P3pInput;

// The stored inverse, or its lack.
#[tactic(auto, unfolding(crate::specs::SolvePlate::source_of))]
fn source_of(invertible: bool, inverse: Matrix3) -> Source
    ensures { result ≡ SolvePlate.source_of invertible inverse }
{
    if invertible {
        Source::Stored(inverse)
    } else {
        Source::Lacking
    }
}

// What is measured in the given ordering.
#[tactic(auto, unfolding(crate::specs::SolvePlate::measure_plate))]
fn measure_plate(plate: Plate, bearings: Bearings) -> Measured
    ensures { result ≡ (SolvePlate.measure_plate plate bearings).value }
{
    let Plate {
        world,
        edges,
        invertible,
        inverse,
    } = plate;
    measure_with(world.p0, source_of(invertible, inverse), edges, bearings)
}

// What is measured in another: its inverse basis is made from the points.
#[tactic(auto, unfolding(crate::specs::SolvePlate::measure_ordering))]
fn measure_ordering(input: P3pInput, edges: SquaredEdges, order: Permutation) -> Measured
    ensures { result ≡ (SolvePlate.measure_ordering input edges order).value }
{
    let P3pInput { world, bearings } = input;
    let Permutation(i, j, k) = order;
    let p0 = target_of(world, i);
    let p1 = target_of(world, j);
    let p2 = target_of(world, k);
    let source = Source::Made(p0 - p1, p0 - p2);
    let squares = ordered_edges(edges, order);
    let rays = ordered_rays(bearings, order);
    measure_with(p0, source, squares, rays)
}

// The given ordering, which is usable. As in crate lambdatwist the slots are in a function of their
// own, and solve_best_ordering repeats these lines (docs/DECISIONS.md).
#[tactic(auto, unfolding(lambdatwist::specs::LentSlots::held))]
fn solve_given(input: P3pInput, measured: Measured, c: Coefficients) -> Answer
    ensures { result ≡ (solve_cubic input measured c).value }
{
    let mut slots = [[0.0; 12]; 4];
    let mut updates = [0u32; 4];
    let mut lifted = [false; 4];
    let count = solve_cubic(input, measured, c, &mut slots, &mut updates, &mut lifted);
    if_kept(held(count, slots, updates, lifted))
}

// solve_best_conditioned_permutation, and the solve of that ordering without a retry.
#[tactic(auto, unfolding(crate::specs::SolvePlate::solve_best_ordering, crate::specs::SolvePlate::solve_measured, lambdatwist::specs::LentSlots::held))]
fn solve_best_ordering(input: P3pInput, edges: SquaredEdges) -> Answer
    ensures { result ≡ (SolvePlate.solve_best_ordering input edges).value }
{
    let best = best_ordering(edges, input.bearings);
    if best.condition <= 64.0 * f64::EPSILON {
        return refused(2);
    }
    let measured = measure_ordering(input, edges, best.order);
    let cubic = measured_cubic(measured);
    if is_unusable(cubic) {
        return refused(2);
    }
    let mut slots = [[0.0; 12]; 4];
    let mut updates = [0u32; 4];
    let mut lifted = [false; 4];
    let count = solve_cubic(
        input,
        measured,
        cubic,
        &mut slots,
        &mut updates,
        &mut lifted,
    );
    if_kept(held(count, slots, updates, lifted))
}

/// The poses of a plate and the bearings to its targets.
#[tactic(auto, unfolding(crate::specs::SolvePlate::solve_plate, crate::specs::SolvePlate::solve_measured))]
pub fn solve_plate(plate: Plate, bearings: Bearings) -> Answer
    ensures { result ≡ (SolvePlate.solve_plate plate bearings).value }
{
    let input = P3pInput {
        world: plate.world,
        bearings,
    };
    if !input.is_finite() {
        return refused(1);
    }
    let measured = measure_plate(plate, bearings);
    let cubic = measured_cubic(measured);
    if is_unusable(cubic) {
        solve_best_ordering(input, plate.edges)
    } else {
        solve_given(input, measured, cubic)
    }
}
