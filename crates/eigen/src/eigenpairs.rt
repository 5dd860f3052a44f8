//! The part of eig_with_known_zero (lambdatwist.rs) that the solve reads: the two eigenvectors and
//! eigenvalues that are not known.
ghost use Rattle.std.specs.Prelude.{◌≡◌};
ghost use Rattle.eigen.specs.Eigenpairs.{pairs_of};
ghost use Rattle.eigen.specs.KnownZero.{system_of_pair, eig_with_known_zero};

use crate::eigenvalues::eigenvalue_pair;
use crate::eigenvector::{eigenvector, precompute};
use crate::zero_vector::has_zero_vector;
use linalg::matrix3::Matrix3;
use linalg::vector3::Vector3;
use polynomial::pair::RootPair;

/// The two vectors, and their values with whether these are a lifted pair.
#[derive(Clone, Copy)]
pub struct Eigenpairs {
    pub column0: Vector3,
    pub column1: Vector3,
    pub values: RootPair,
}

/// The pairs of a matrix, by the two eigenvalues: whatever the eigenvector of zero is.
#[tactic(auto, unfolding(crate::specs::KnownZero::system_of_pair, linalg::specs::Matrices::from_columns))]
pub fn eigenpairs_of(m: Matrix3, off_diagonal_squared: f64, values: RootPair) -> Option<Eigenpairs>
    ensures { (zero : Vector3) →
        result ≡ pairs_of (system_of_pair m zero off_diagonal_squared values).value }
{
    let p = precompute(m, off_diagonal_squared);
    let column0 = eigenvector(m, p, values.first)?;
    let column1 = eigenvector(m, p, values.second)?;
    Some(Eigenpairs {
        column0,
        column1,
        values,
    })
}

#[tactic(auto, unfolding(crate::specs::KnownZero::eig_with_known_zero))]
pub fn eigenpairs_with_known_zero(m: Matrix3) -> Option<Eigenpairs>
    ensures { result ≡ pairs_of (eig_with_known_zero m).value }
{
    if !m.all_finite() || !has_zero_vector(m) {
        return None;
    }
    let off_diagonal_squared = m.m01 * m.m01;
    let values = eigenvalue_pair(m, off_diagonal_squared)?;
    eigenpairs_of(m, off_diagonal_squared, values)
}
