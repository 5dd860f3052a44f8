//! Whether stored answers are those of the solve about the first target and of the choice that goes
//! with it.
#![tactic(auto)]

pub mod chosen_about;
pub mod solved_about;
