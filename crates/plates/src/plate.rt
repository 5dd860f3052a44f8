//! The plate, and the one worked out from three points.
ghost use Rattle.std.specs.Prelude.{◌≡◌};
ghost use Rattle.plates.specs.Plate.{with_basis, plate_of, zero_plate};

use frames::squared_edges::SquaredEdges;
use frames::world::World;
use linalg::matrix3::Matrix3;
use linalg::vector3::Vector3;
use orderings::edges::{edge_vectors, squared_edges};
use p3p_common::world_basis_inverse::world_basis_inverse;

/// The squared edges of the points, and the inverse basis of the given ordering: plus zeros where
/// it is not `invertible`. Those that `plate_of` makes hold what their points give; a plate made
/// otherwise may hold anything.
#[derive(Clone, Copy)]
pub struct Plate {
    pub world: World,
    pub edges: SquaredEdges,
    pub invertible: bool,
    pub inverse: Matrix3,
}

// Points, their squared edges, and the basis of the given ordering.
#[tactic(auto, unfolding(crate::specs::Plate::with_basis))]
fn with_basis(world: World, edges: SquaredEdges, basis: Option<Matrix3>) -> Plate
    ensures { result ≡ with_basis world edges basis }
{
    let zeros = Vector3::zeros();
    match basis {
        Some(inverse) => Plate {
            world,
            edges,
            invertible: true,
            inverse,
        },
        None => Plate {
            world,
            edges,
            invertible: false,
            inverse: Matrix3::from_columns(zeros, zeros, zeros),
        },
    }
}

// The plate of three points, worked out as solve_ordered (lambdatwist.rs) does.
#[tactic(auto, unfolding(crate::specs::Plate::plate_of))]
pub(crate) fn plate_of(world: World) -> Plate
    ensures { result ≡ (plate_of world).value }
{
    let vectors = edge_vectors(world);
    let edges = squared_edges(vectors);
    let basis = world_basis_inverse(vectors.d01, vectors.d02);
    with_basis(world, edges, basis)
}

// Plus zeros, without inverse.
#[tactic(auto, unfolding(crate::specs::Plate::zero_plate, crate::specs::Plate::zero_edges))]
pub(crate) fn zero_plate() -> Plate
    ensures { result ≡ zero_plate }
{
    let zeros = Vector3::zeros();
    let world = World {
        p0: zeros,
        p1: zeros,
        p2: zeros,
    };
    let edges = SquaredEdges {
        a01: 0.0,
        a02: 0.0,
        a12: 0.0,
    };
    with_basis(world, edges, None)
}
