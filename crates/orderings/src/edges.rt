//! The edges of the world's triangle and their squared lengths: the first lines of solve_ordered
//! and of leading_cubic_condition (lambdatwist.rs).
ghost use Rattle.std.specs.Prelude.{◌≡◌};
ghost use Rattle.orderings.specs.Edges.{edge_vectors, squared_edges};

use frames::squared_edges::SquaredEdges;
use frames::world::World;
use linalg::vector3::Vector3;

#[derive(Clone, Copy)]
pub struct EdgeVectors {
    pub d01: Vector3,
    pub d02: Vector3,
    pub d12: Vector3,
}

#[tactic(auto, unfolding(crate::specs::Edges::edge_vectors))]
pub fn edge_vectors(world: World) -> EdgeVectors
    ensures { result ≡ (edge_vectors world).value }
{
    let World { p0, p1, p2 } = world;
    EdgeVectors {
        d01: p0 - p1,
        d02: p0 - p2,
        d12: p1 - p2,
    }
}

#[tactic(auto, unfolding(crate::specs::Edges::squared_edges))]
pub fn squared_edges(edges: EdgeVectors) -> SquaredEdges
    ensures { result ≡ (squared_edges edges).value }
{
    SquaredEdges {
        a01: edges.d01.norm_squared(),
        a02: edges.d02.norm_squared(),
        a12: edges.d12.norm_squared(),
    }
}
