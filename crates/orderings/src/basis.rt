//! Where the inverse basis of an ordering comes from: it is made of two edges of the world's
//! triangle, as solve_ordered (lambdatwist.rs) makes it, or a plate has it.
ghost use Rattle.std.specs.Prelude.{◌≡◌};
ghost use Rattle.orderings.specs.Basis.{basis_of};

use linalg::matrix3::Matrix3;
use linalg::vector3::Vector3;
use p3p_common::world_basis_inverse::world_basis_inverse;

#[derive(Clone, Copy)]
pub enum Source {
    /// It is to be made of these edges.
    Made(Vector3, Vector3),
    /// It is at hand.
    Stored(Matrix3),
    /// There is none.
    Lacking,
}

#[tactic(auto, unfolding(crate::specs::Basis::basis_of))]
pub fn basis_of(source: Source) -> Option<Matrix3>
    ensures { result ≡ (basis_of source).value }
{
    match source {
        Source::Made(d01, d02) => world_basis_inverse(d01, d02),
        Source::Stored(inverse) => Some(inverse),
        Source::Lacking => None,
    }
}
