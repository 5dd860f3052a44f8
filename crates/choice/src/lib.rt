//! The choice of one pose by a fourth target, which is to lie before the camera.
#![tactic(auto)]

pub mod choose;
pub mod count;
pub mod score;
