//! What is measured of the points and bearings in one order, the cubic of that and its condition,
//! and the best conditioned of the other orders: from pose/p3p/lambdatwist.rs.
#![tactic(auto)]

pub mod angles;
pub mod basis;
pub mod condition;
pub mod cubic;
pub mod edges;
pub mod measured;
pub mod permutation;
