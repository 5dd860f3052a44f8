//! Whether stored answers are those of the functions that the three-point solvers share, and of the
//! choice by a fourth target.
#![tactic(auto)]

pub mod chosen;
pub mod pieces;
mod push;
