//! The eigenvectors, by columns, and the eigenvalues of a symmetric matrix of which zero is an
//! eigenvalue: eig_with_known_zero of lambdatwist.rs. The solve reads less of it (`eigenpairs`);
//! this is what is replayed.
ghost use Rattle.std.specs.Prelude.{◌≡◌};
ghost use Rattle.eigen.specs.KnownZero.{system_of_pair, eig_with_known_zero};

use crate::eigenvalues::eigenvalue_pair;
use crate::eigenvector::{eigenvector, precompute};
use crate::zero_vector::zero_vector;
use linalg::matrix3::Matrix3;
use linalg::vector3::Vector3;
use polynomial::pair::RootPair;

/// The eigenvectors, the eigenvalues, and whether the two that were not known are a lifted pair.
#[derive(Clone, Copy)]
pub struct Eigensystem {
    pub vectors: Matrix3,
    pub values: Vector3,
    pub lifted: bool,
}

/// The system of a matrix, by the eigenvector of zero and the other two eigenvalues.
#[tactic(auto, unfolding(crate::specs::KnownZero::system_of_pair))]
pub fn system_of_pair(
    m: Matrix3,
    zero: Vector3,
    off_diagonal_squared: f64,
    pair: RootPair,
) -> Option<Eigensystem>
    ensures { result ≡ (system_of_pair m zero off_diagonal_squared pair).value }
{
    let p = precompute(m, off_diagonal_squared);
    let column0 = eigenvector(m, p, pair.first)?;
    let column1 = eigenvector(m, p, pair.second)?;
    Some(Eigensystem {
        vectors: Matrix3::from_columns(column0, column1, zero),
        values: Vector3 {
            x: pair.first,
            y: pair.second,
            z: 0.0,
        },
        lifted: pair.lifted,
    })
}

#[tactic(auto, unfolding(crate::specs::KnownZero::eig_with_known_zero))]
pub fn eig_with_known_zero(m: Matrix3) -> Option<Eigensystem>
    ensures { result ≡ (eig_with_known_zero m).value }
{
    if !m.all_finite() {
        return None;
    }
    let zero = zero_vector(m)?;
    let off_diagonal_squared = m.m01 * m.m01;
    let pair = eigenvalue_pair(m, off_diagonal_squared)?;
    system_of_pair(m, zero, off_diagonal_squared, pair)
}
