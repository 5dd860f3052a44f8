//! A plate that knows its edges: three world points with what a solve works out of them alone, the
//! operations that keep it so, and the solve with it.
#![tactic(auto)]

pub mod exchange;
pub mod make;
pub mod ordering;
pub mod outcome;
pub mod plate;
pub mod replace;
pub mod solve_plate;
pub mod targets;
pub mod times_power;
