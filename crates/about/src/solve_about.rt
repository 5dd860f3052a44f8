//! The solve about the first target: the present solve of the differences, and the point that was
//! subtracted beside its answer.
ghost use Rattle.std.specs.Prelude.{◌≡◌};
ghost use Rattle.about.specs.SolveAbout as SolveAbout;

use crate::differences::differences;
use frames::bearings::Bearings;
use frames::world::World;
use lambdatwist::solve::{Answer, refused, solve};
use linalg::vector3::Vector3;
use p3p_common::input::P3pInput;

/// The poses of `answer` take x - origin to the camera. `origin` is the first world point as it was
/// given, and plus zeros where the answer is refused.
#[derive(Clone, Copy)]
pub struct AnswerAbout {
    pub answer: Answer,
    pub origin: Vector3,
}

/// The answer by itself: whether the eighteen numbers are finite, and then the differences, and the
/// solve of these.
#[tactic(auto, unfolding(crate::specs::SolveAbout::answer_about))]
pub fn answer_about(world: World, bearings: Bearings) -> Answer
    ensures { result ≡ (SolveAbout.answer_about world bearings).value }
{
    let input = P3pInput { world, bearings };
    if !input.is_finite() {
        return refused(1);
    }
    let moved = differences(world);
    if !moved.is_finite() {
        return refused(1);
    }
    solve(moved, bearings)
}

// An answer of the solve with the point that was subtracted.
#[tactic(auto, unfolding(crate::specs::SolveAbout::with_origin))]
fn with_origin(origin: Vector3, answer: Answer) -> AnswerAbout
    ensures { result ≡ SolveAbout.with_origin origin answer }
{
    if answer.refusal == 0 {
        AnswerAbout { answer, origin }
    } else {
        AnswerAbout {
            answer,
            origin: Vector3::zeros(),
        }
    }
}

/// The poses, about the first, of three world points and the bearings to them.
#[tactic(auto, unfolding(crate::specs::SolveAbout::solve_about))]
pub fn solve_about(world: World, bearings: Bearings) -> AnswerAbout
    ensures { result ≡ (SolveAbout.solve_about world bearings).value }
{
    with_origin(world.p0, answer_about(world, bearings))
}
