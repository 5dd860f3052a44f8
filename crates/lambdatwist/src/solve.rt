//! The solve of eighteen doubles: solve_ordered, solve_best_conditioned_permutation, and
//! solve_validated with solve_solver_minimal as `solve`, of lambdatwist.rs, with its refusals.
ghost use Rattle.std.specs.Prelude.{◌≡◌, ◌≤◌};
ghost use Rattle.lambdatwist.specs.LentSlots.{Fresh, Answers};
ghost use Rattle.lambdatwist.specs.Solve as Solve;

use crate::poses::poses;
use crate::slots::held;
use depths::candidates::Candidates;
use depths::matrix::singular_matrix;
use depths::ratio::ratio_of;
use depths::signs::candidates;
use eigen::eigenpairs::{Eigenpairs, eigenpairs_with_known_zero};
use frames::bearings::Bearings;
use frames::pose::Pose;
use frames::world::World;
use orderings::basis::basis_of;
use orderings::cubic::{Coefficients, is_unusable};
use orderings::measured::{Measured, measure, measured_cubic};
use orderings::permutation::best_permutation;
use p3p_common::input::P3pInput;
use p3p_common::solutions::Solutions;
use polynomial::Roots;
use polynomial::cubic::polished_cubic_root;

/// `refusal` is 0 where there is a pose, and otherwise 1, 2 or 3, with count 0 and plus zeros in
/// every slot. `lifted` says of each pose whether the pair of eigenvalues or of depth ratios that
/// it came from was lifted. Slots beyond the count hold plus zeros and false.
#[derive(Clone, Copy)]
pub struct Answer {
    pub refusal: u32,
    pub count: u32,
    pub poses: [Pose; 4],
    pub updates: [u32; 4],
    pub lifted: [bool; 4],
}

#[tactic(auto, unfolding(crate::specs::Solve::answered))]
fn answered(number: u32, solutions: Solutions) -> Answer
    requires { solutions.count ≤ 4 }
    ensures { result ≡ Solve.answered number solutions }
{
    let Solutions {
        count,
        poses,
        updates,
        lifted,
    } = solutions;
    Answer {
        refusal: number,
        count: count as u32,
        poses,
        updates,
        lifted,
    }
}

#[tactic(auto, unfolding(crate::specs::Solve::refused, p3p_common::specs::Slots::empty))]
pub fn refused(number: u32) -> Answer
    ensures { result ≡ Solve.refused number }
{
    answered(number, Solutions::empty())
}

#[tactic(auto, unfolding(crate::specs::Solve::if_kept))]
pub fn if_kept(solutions: Solutions) -> Answer
    requires { solutions.count ≤ 4 }
    ensures { result ≡ Solve.if_kept solutions }
{
    if solutions.count == 0 {
        refused(3)
    } else {
        answered(0, solutions)
    }
}

// ---- the stages of solve_ordered, from the last to the first: each fills the slots and returns
// how many, 0 where it stops

#[tactic(auto, using(crate::proofs::Filling::stops), unfolding(crate::specs::Solve::solve_candidates))]
fn solve_candidates(
    input: P3pInput,
    measured: Measured,
    found: Candidates,
    slots: &mut [[f64; 12]; 4],
    updates: &mut [u32; 4],
    lifted: &mut [bool; 4],
) -> usize
    requires count_bound { found.count ≤ 4 }
    requires fresh { Fresh slots.old updates.old lifted.old }
    ensures { Answers result slots.new updates.new lifted.new
        (Solve.solve_candidates input measured found).value }
{
    let Some(world_inverse) = basis_of(measured.source) else {
        return 0;
    };
    poses(
        input,
        measured,
        world_inverse,
        found,
        slots,
        updates,
        lifted,
    )
}

fn solve_root(
    input: P3pInput,
    measured: Measured,
    g: f64,
    slots: &mut [[f64; 12]; 4],
    updates: &mut [u32; 4],
    lifted: &mut [bool; 4],
) -> usize
    requires { Fresh slots.old updates.old lifted.old }
    ensures { Answers result slots.new updates.new lifted.new
        (Solve.solve_root input measured g).value }
{
    let Measured {
        squares,
        factors,
        ..
    } = measured;
    let matrix = singular_matrix(squares, factors, g);
    let Some(
        Eigenpairs {
            column0,
            column1,
            values,
        },
    ) = eigenpairs_with_known_zero(matrix)
    else {
        return 0;
    };
    let Some(ratio) = ratio_of(values.first, values.second) else {
        return 0;
    };
    let found = candidates(squares, factors, column0, column1, ratio, values.lifted);
    solve_candidates(input, measured, found, slots, updates, lifted)
}

#[tactic(auto, using(crate::proofs::Filling::stops, crate::proofs::Filling::roots), unfolding(crate::specs::Solve::solve_cubic))]
pub fn solve_cubic(
    input: P3pInput,
    measured: Measured,
    c: Coefficients,
    slots: &mut [[f64; 12]; 4],
    updates: &mut [u32; 4],
    lifted: &mut [bool; 4],
) -> usize
    requires { Fresh slots.old updates.old lifted.old }
    ensures { Answers result slots.new updates.new lifted.new
        (Solve.solve_cubic input measured c).value }
{
    let Coefficients {
        cubic3,
        cubic2,
        cubic1,
        cubic0,
    } = c;
    let Roots::One(g) = polished_cubic_root(cubic2 / cubic3, cubic1 / cubic3, cubic0 / cubic3)
    else {
        return 0;
    };
    solve_root(input, measured, g, slots, updates, lifted)
}

// ---- the cycle

// The points and bearings in some order of the input's. The solve comes here with no retry left;
// the contract holds for any number.
#[cycle(solve_best_conditioned_permutation_solve_ordered)]
fn solve_ordered(input: P3pInput, world: World, bearings: Bearings, retries: u32) -> Answer
    ensures { result ≡ (Solve.solve_ordered retries input world bearings).value }
{
    let measured = measure(world, bearings);
    let cubic = measured_cubic(measured);
    if is_unusable(cubic) {
        return if retries > 0 {
            solve_best_conditioned_permutation(input, retries - 1)
        } else {
            refused(2)
        };
    }
    let mut slots = [[0.0; 12]; 4];
    let mut updates = [0u32; 4];
    let mut lifted = [false; 4];
    let count = solve_cubic(
        input,
        measured,
        cubic,
        &mut slots,
        &mut updates,
        &mut lifted,
    );
    if_kept(held(count, slots, updates, lifted))
}

#[cycle(solve_best_conditioned_permutation_solve_ordered)]
fn solve_best_conditioned_permutation(input: P3pInput, retries: u32) -> Answer
    ensures { result ≡ (Solve.solve_best_conditioned_permutation retries input).value }
{
    let best = best_permutation(input);
    if best.condition <= 64.0 * f64::EPSILON {
        return refused(2);
    }
    solve_ordered(input, best.world, best.bearings, retries)
}

// ---- the entry: the first turn of the cycle is written out, so that the common way through it is
// compiled by itself (docs/DECISIONS.md)

// The given ordering, which is usable. The slots are in a function of their own, so that they take
// no stack beside a retry's; solve_ordered repeats these lines (docs/DECISIONS.md).
#[tactic(auto, unfolding(crate::specs::LentSlots::held))]
fn solve_given(input: P3pInput, measured: Measured, c: Coefficients) -> Answer
    ensures { result ≡ (Solve.solve_cubic input measured c).value }
{
    let mut slots = [[0.0; 12]; 4];
    let mut updates = [0u32; 4];
    let mut lifted = [false; 4];
    let count = solve_cubic(input, measured, c, &mut slots, &mut updates, &mut lifted);
    if_kept(held(count, slots, updates, lifted))
}

/// The poses of three world points and the bearings to them.
#[tactic(auto, using(crate::proofs::Retries::retried, crate::proofs::Retries::usable), unfolding(crate::specs::Solve::solve))]
pub fn solve(world: World, bearings: Bearings) -> Answer
    ensures { result ≡ (Solve.solve world bearings).value }
{
    let input = P3pInput { world, bearings };
    if !input.is_finite() {
        return refused(1);
    }
    let measured = measure(world, bearings);
    let cubic = measured_cubic(measured);
    if is_unusable(cubic) {
        solve_best_conditioned_permutation(input, 0)
    } else {
        solve_given(input, measured, cubic)
    }
}
