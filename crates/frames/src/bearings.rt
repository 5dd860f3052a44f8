//! The bearings at which the camera sees the three targets.
use linalg::vector3::Vector3;

#[derive(Clone, Copy)]
pub struct Bearings {
    pub f0: Vector3,
    pub f1: Vector3,
    pub f2: Vector3,
}
