//! Root finders for monic quadratics and cubics: the part of polynomial.rs that the Lambda Twist
//! solver calls. Whatever doubles come in, there is an answer.
#![tactic(auto)]

pub mod cubic;
pub mod pair;
pub mod quadratic;

/// The answer of a root finder. A quadratic's pair is told apart by the discriminant as computed.
/// A refusal has its number: 4 where a coefficient is not finite, 5 where a quadratic has no real
/// roots, 6 where a cubic's root was not found.
#[derive(Clone, Copy, Debug, PartialEq)]
pub enum Roots {
    /// A quadratic's two roots: the discriminant is above zero.
    Two(f64, f64),
    /// A quadratic's root, which counts twice: the discriminant is zero.
    Double(f64),
    /// The same, but the discriminant is below zero, within the band, and was lifted to zero.
    Lifted(f64),
    /// A cubic's root.
    One(f64),
    Refused(u32),
}
