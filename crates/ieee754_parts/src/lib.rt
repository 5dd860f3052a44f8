//! The whole-number parts of the operations on doubles: a double taken apart, numbers of two words,
//! thirds, rounding, a double put together, and the rounded sum of a product and an addend. What
//! they return is said by the definitions of specs/, of a third by its contract.
#![tactic(auto)]

pub mod format;
pub mod leading;
pub mod normal;
pub mod pack;
mod round;
pub mod sum;
pub mod third;
pub mod unpack;
pub mod wide;
