//! A stored frame: what the solver and the choice of pose are given.
use crate::bearings::Bearings;
use crate::world::World;
use linalg::vector3::Vector3;

#[derive(Clone, Copy)]
pub struct Frame {
    pub world: World,
    pub bearings: Bearings,
    /// The checking target and the bearing at which it is seen.
    pub target: Vector3,
    pub bearing: Vector3,
}
