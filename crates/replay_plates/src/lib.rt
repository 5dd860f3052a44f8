//! Whether stored answers are those of the operations on a plate, of the solve with it and of the
//! preview of a moved target.
#![tactic(auto)]

mod exponents;
pub mod handlings;
mod plate;
