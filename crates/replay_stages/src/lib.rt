//! Whether stored answers are those of the solve and of three of its stages.
#![tactic(auto)]

pub mod answers;
mod eigenvectors;
mod frame;
pub mod stages;
