//! Answers in lent memory, in the layout of include/p3p.h: what the functions that C and Rust link
//! have in common. A refused answer writes nothing.
#![tactic(auto)]

pub mod chosen;
pub mod plate;
pub mod solved;
