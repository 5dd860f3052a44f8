//! What solve_ordered and leading_cubic_condition (lambdatwist.rs) take from the bearings: the
//! cosines of the angles between them, what the cubic's coefficients need of those, and the factors
//! b01, b02 and b12 of the matrix and the charts.
ghost use Rattle.std.specs.Prelude.{◌≡◌};
ghost use Rattle.orderings.specs.Angles.{cosine, cosines, squared_sines, bearing_factors};

use frames::bearings::Bearings;
use frames::cosines::Cosines;
use ieee754::clamp::clamp;
use linalg::vector3::Vector3;

/// s20, s12 and s01 are squared sines.
#[derive(Clone, Copy)]
pub struct SquaredSines {
    pub triple: f64,
    pub s20: f64,
    pub s12: f64,
    pub s01: f64,
}

#[derive(Clone, Copy)]
pub struct Factors {
    pub b01: f64,
    pub b02: f64,
    pub b12: f64,
}

#[tactic(auto, unfolding(crate::specs::Angles::cosine))]
pub fn cosine(f: Vector3, g: Vector3) -> f64
    ensures { result ≡ (cosine f g).value }
{
    clamp(f.dot(g), -1.0, 1.0)
}

#[tactic(auto, unfolding(crate::specs::Angles::cosines))]
pub fn cosines(bearings: Bearings) -> Cosines
    ensures { result ≡ (cosines bearings).value }
{
    let Bearings { f0, f1, f2 } = bearings;
    Cosines {
        m01: cosine(f0, f1),
        m12: cosine(f1, f2),
        m02: cosine(f2, f0),
    }
}

#[tactic(auto, unfolding(crate::specs::Angles::squared_sines))]
pub fn squared_sines(cosines: Cosines) -> SquaredSines
    ensures { result ≡ (squared_sines cosines).value }
{
    let Cosines {
        m01: c01,
        m02: c20,
        m12: c12,
    } = cosines;
    SquaredSines {
        triple: c01 * c12 * c20 - 1.0,
        s20: 1.0 - c20 * c20,
        s12: 1.0 - c12 * c12,
        s01: 1.0 - c01 * c01,
    }
}

#[tactic(auto, unfolding(crate::specs::Angles::bearing_factors))]
pub fn bearing_factors(cosines: Cosines) -> Factors
    ensures { result ≡ (bearing_factors cosines).value }
{
    Factors {
        b01: -2.0 * cosines.m01,
        b02: -2.0 * cosines.m02,
        b12: -2.0 * cosines.m12,
    }
}
