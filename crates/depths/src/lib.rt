//! From a root of the cubic to a frame's depth candidates: the matrix, the ratio of its
//! eigenvalues, and the charts of pose/p3p/lambdatwist.rs.
#![tactic(auto)]

pub mod candidates;
pub mod charts;
pub mod matrix;
pub mod ratio;
pub mod signs;
