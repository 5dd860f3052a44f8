//! The squared lengths of the edges between three world points, by the points that each joins.
#[derive(Clone, Copy)]
pub struct SquaredEdges {
    pub a01: f64,
    pub a02: f64,
    pub a12: f64,
}
