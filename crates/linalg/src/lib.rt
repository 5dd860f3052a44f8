//! Vectors and matrices of three doubles a side, by value, with nalgebra's orders of operations.
#![tactic(auto)]

pub mod matrix3;
pub mod vector3;
