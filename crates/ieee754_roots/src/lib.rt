//! The whole numbers nearest to the square and cube roots of significands: the digits of a double's
//! root.
#![tactic(auto)]

pub mod cbrt;
pub mod sqrt;
mod start;
