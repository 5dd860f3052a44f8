//! Lambda Twist, the three-point pose solver of Persson and Nordberg: a port of
//! pose/p3p/lambdatwist.rs. From depth candidates to poses, the retry with another ordering, and
//! the solve. Whatever eighteen doubles come in, there is an answer.
#![tactic(auto)]

pub mod poses;
pub mod slots;
pub mod solve;
