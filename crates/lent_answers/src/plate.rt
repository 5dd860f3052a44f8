//! A plate over a lent array and a lent number: nine doubles of points, the three squared edges,
//! nine of the inverse by columns; and whether there is an inverse.
ghost use Rattle.std.specs.Prelude.{◌≡◌};
ghost use Rattle.lent_answers.specs.Plated as Plated;

use frames::lent::{vector_at, world_at};
use frames::squared_edges::SquaredEdges;
use frames::world::World;
use linalg::matrix3::Matrix3;
use plates::outcome::Outcome;
use plates::plate::Plate;

/// Any number but 0 says that there is an inverse.
#[tactic(auto, unfolding(crate::specs::Plated::plate_in))]
pub fn plate_in(xs: &[f64; 21], has_inverse: u32) -> Plate
    ensures { result ≡ Plated.plate_in xs.now has_inverse }
{
    let world = world_at(xs, 0);
    let edges = SquaredEdges {
        a01: xs[9],
        a02: xs[10],
        a12: xs[11],
    };
    let column0 = vector_at(xs, 12);
    let column1 = vector_at(xs, 15);
    let column2 = vector_at(xs, 18);
    let inverse = Matrix3::from_columns(column0, column1, column2);
    Plate {
        world,
        edges,
        invertible: has_inverse != 0,
        inverse,
    }
}

/// The doubles of a plate, as `plate_in` reads them.
#[tactic(auto, unfolding(crate::specs::Plated::plate_entries))]
pub fn plate_entries(plate: Plate) -> [f64; 21]
    ensures { result ≡ Plated.plate_entries plate }
{
    let Plate {
        world: World { p0, p1, p2 },
        edges,
        inverse,
        ..
    } = plate;
    [
        p0.x,
        p0.y,
        p0.z,
        p1.x,
        p1.y,
        p1.z,
        p2.x,
        p2.y,
        p2.z,
        edges.a01,
        edges.a02,
        edges.a12,
        inverse.m00,
        inverse.m10,
        inverse.m20,
        inverse.m01,
        inverse.m11,
        inverse.m21,
        inverse.m02,
        inverse.m12,
        inverse.m22,
    ]
}

/// Writes the plate of an operation. Returns its refusal number, 0 where it was written.
#[tactic(auto, unfolding(crate::specs::Plated::plate_after, crate::specs::Plated::inverse_after))]
pub fn write_plate(outcome: Outcome, plate: &mut [f64; 21], has_inverse: &mut u32) -> u32
    ensures value { result ≡ outcome.refusal }
    ensures plate_after { plate.new ≡ Plated.plate_after outcome plate.old }
    ensures has_inverse_after { has_inverse.new
        ≡ Plated.inverse_after outcome has_inverse.old }
{
    if outcome.refusal == 0 {
        *plate = plate_entries(outcome.plate);
        *has_inverse = u32::from(outcome.plate.invertible);
    }
    outcome.refusal
}
