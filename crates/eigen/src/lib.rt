//! The eigensystem of a symmetric matrix of which zero is an eigenvalue: eig_with_known_zero and
//! eigenvector_from_row_crosses of pose/p3p/lambdatwist.rs.
#![tactic(auto)]

pub mod eigenpairs;
pub mod eigenvalues;
pub mod eigenvector;
pub mod known_zero;
pub mod row_crosses;
pub mod zero_vector;
