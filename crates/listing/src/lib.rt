//! The listing's lines, put behind what waits in a buffer of any fixed size.
#![tactic(auto)]

mod digits;
pub mod line;
mod put;
mod words;
