//! The parts of a cubic's root: the fast cube root, Cardano's formula, the scale of the variable,
//! the start, and Newton's steps from it. From shared/polynomial.rs.
#![tactic(auto)]

pub mod cardano;
pub mod cubic_scale;
pub mod cubic_start;
pub mod fast_cbrt;
pub mod newton;

/// The polynomial x^3 + b*x^2 + c*x + d.
#[derive(Clone, Copy, Debug, PartialEq)]
pub struct Monic {
    pub b: f64,
    pub c: f64,
    pub d: f64,
}
