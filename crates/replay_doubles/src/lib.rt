//! Whether stored answers are those of the functions of doubles: the single operations and the root
//! finders.
#![tactic(auto)]

pub mod operations;
pub mod roots;
