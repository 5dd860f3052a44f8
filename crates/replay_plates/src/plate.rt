//! A plate in a record: the points, the squared edges, the inverse by its columns, and 0 or 1; and
//! what an operation gives, its number and a plate.
ghost use Rattle.std.specs.Prelude.{◌≡◌, ◌≤◌};
ghost use Rattle.replay_plates.specs.PlateContents.{plate_at, plate_agrees, outcome_agrees};

use frames::squared_edges::SquaredEdges;
use frames::world::World;
use linalg::matrix3::Matrix3;
use plates::outcome::Outcome;
use plates::plate::Plate;
use replay_records::Record;
use replay_records::agreement::Compared;
use replay_records::contents::Stored;
use replay_words::word;

// The plate that a record begins with. Any number but 0 says that there is an inverse.
#[tactic(auto, unfolding(crate::specs::PlateContents::plate_at))]
pub(crate) fn plate_at(s: &Record) -> Plate
    ensures { result ≡ plate_at s.now }
{
    Plate {
        world: World::read(s, 0),
        edges: SquaredEdges::read(s, 72),
        invertible: word(s, 168) != 0,
        inverse: Matrix3::read(s, 96),
    }
}

#[tactic(auto, unfolding(crate::specs::PlateContents::plate_agrees))]
fn plate_agrees(plate: Plate, s: &Record, at: usize) -> bool
    requires { at ≤ 592 }
    ensures { result ≡ plate_agrees plate s.now at }
{
    let world = plate.world.agrees(s, at);
    let edges = plate.edges.agrees(s, at + 72);
    let inverse = plate.inverse.agrees(s, at + 96);
    let invertible = plate.invertible.agrees(s, at + 168);
    world & edges & inverse & invertible
}

// The number stands at `at`, the plate after it.
#[tactic(auto, unfolding(crate::specs::PlateContents::outcome_agrees))]
pub(crate) fn outcome_agrees(outcome: Outcome, s: &Record, at: usize) -> bool
    requires { at ≤ 584 }
    ensures { result ≡ outcome_agrees outcome s.now at }
{
    let number = outcome.refusal.agrees(s, at);
    let plate = plate_agrees(outcome.plate, s, at + 8);
    number & plate
}
