//! Poses about the first target. The first world point is subtracted from all three before the
//! solve and from the checking target before the choice, so that no large coordinate meets the
//! rotation's last bits. A pose of this crate takes x - origin to the camera, and not x.
#![tactic(auto)]

pub mod choose_about;
pub mod differences;
pub mod solve_about;
