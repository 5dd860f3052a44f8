//! The cosines of the angles between three bearings, by the bearings that each lies between.
#[derive(Clone, Copy)]
pub struct Cosines {
    pub m01: f64,
    pub m02: f64,
    pub m12: f64,
}
