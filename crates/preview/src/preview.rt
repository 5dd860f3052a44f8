//! A preview: the target is replaced on a copy of the plate, and the copy is solved with. The plate
//! is taken by value and stays as it is.
ghost use Rattle.std.specs.Prelude.{◌≡◌};
ghost use Rattle.preview.specs.Preview as Preview;

use frames::bearings::Bearings;
use frames::squared_edges::SquaredEdges;
use lambdatwist::solve::{Answer, refused};
use linalg::vector3::Vector3;
use plates::outcome::Outcome;
use plates::plate::Plate;
use plates::replace::replace;
use plates::solve_plate::solve_plate;

/// The answer with the target moved, and the squared edges that would be stored, also where the
/// solve refuses; plus zeros where the replacement is refused.
#[derive(Clone, Copy)]
pub struct Shown {
    pub answer: Answer,
    pub edges: SquaredEdges,
}

// The squared edges that a replacement would store.
#[tactic(auto, unfolding(crate::specs::Preview::edges_shown, plates::specs::Plate::zero_edges))]
fn edges_shown(copy: Outcome) -> SquaredEdges
    ensures { result ≡ Preview.edges_shown copy }
{
    let Outcome { refusal, plate } = copy;
    if refusal == 0 {
        plate.edges
    } else {
        SquaredEdges {
            a01: 0.0,
            a02: 0.0,
            a12: 0.0,
        }
    }
}

// The replacement's refusal, or the solve with the plate that it left.
#[tactic(auto, unfolding(crate::specs::Preview::answer_shown))]
fn answer_shown(copy: Outcome, bearings: Bearings) -> Answer
    ensures { result ≡ Preview.answer_shown copy bearings }
{
    let Outcome { refusal, plate } = copy;
    if refusal == 0 {
        solve_plate(plate, bearings)
    } else {
        refused(refusal)
    }
}

/// What replacing a target of the plate by a point would do to the poses of a frame.
#[tactic(auto, unfolding(crate::specs::Preview::preview))]
pub fn preview(plate: Plate, number: u32, point: Vector3, bearings: Bearings) -> Shown
    ensures { result ≡ Preview.preview plate number point bearings }
{
    let copy = replace(plate, number, point);
    Shown {
        answer: answer_shown(copy, bearings),
        edges: edges_shown(copy),
    }
}
