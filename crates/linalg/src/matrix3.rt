//! nalgebra's Matrix3<f64>, by its entries, the row first: the operations that the solver uses.
ghost use Rattle.std.specs.Prelude.{◌≡◌};
ghost use Rattle.linalg.specs.Matrices.{from_columns, from_rows, column0, column1, column2};
ghost use Rattle.linalg.specs.Matrices.{mat_vec, mat_mul, mat_norm_squared, trace, mat_finite};

use crate::vector3::Vector3;
use std::ops::Mul;

#[derive(Clone, Copy)]
pub struct Matrix3 {
    pub m00: f64,
    pub m01: f64,
    pub m02: f64,
    pub m10: f64,
    pub m11: f64,
    pub m12: f64,
    pub m20: f64,
    pub m21: f64,
    pub m22: f64,
}

impl Matrix3 {
    #[tactic(auto, unfolding(crate::specs::Matrices::from_columns))]
    pub fn from_columns(c0: Vector3, c1: Vector3, c2: Vector3) -> Self
        ensures { result ≡ from_columns c0 c1 c2 }
    {
        Self {
            m00: c0.x,
            m01: c1.x,
            m02: c2.x,
            m10: c0.y,
            m11: c1.y,
            m12: c2.y,
            m20: c0.z,
            m21: c1.z,
            m22: c2.z,
        }
    }

    #[tactic(auto, unfolding(crate::specs::Matrices::from_rows))]
    pub fn from_rows(r0: Vector3, r1: Vector3, r2: Vector3) -> Self
        ensures { result ≡ from_rows r0 r1 r2 }
    {
        Self {
            m00: r0.x,
            m01: r0.y,
            m02: r0.z,
            m10: r1.x,
            m11: r1.y,
            m12: r1.z,
            m20: r2.x,
            m21: r2.y,
            m22: r2.z,
        }
    }

    pub fn column0(self) -> Vector3
        ensures { result ≡ column0 self }
    {
        Vector3 {
            x: self.m00,
            y: self.m10,
            z: self.m20,
        }
    }

    pub fn column1(self) -> Vector3
        ensures { result ≡ column1 self }
    {
        Vector3 {
            x: self.m01,
            y: self.m11,
            z: self.m21,
        }
    }

    pub fn column2(self) -> Vector3
        ensures { result ≡ column2 self }
    {
        Vector3 {
            x: self.m02,
            y: self.m12,
            z: self.m22,
        }
    }

    #[tactic(auto, unfolding(crate::specs::Matrices::mat_norm_squared))]
    pub fn norm_squared(self) -> f64
        ensures { result ≡ (mat_norm_squared self).value }
    {
        self.column0().norm_squared()
            + self.column1().norm_squared()
            + self.column2().norm_squared()
    }

    #[tactic(auto, unfolding(crate::specs::Matrices::trace))]
    pub fn trace(self) -> f64
        ensures { result ≡ (trace self).value }
    {
        0.0 + self.m00 + self.m11 + self.m22
    }

    /// `self.iter().all(|value| value.is_finite())`
    #[tactic(auto, unfolding(crate::specs::Matrices::mat_finite))]
    pub fn all_finite(self) -> bool
        ensures { result ≡ mat_finite self }
    {
        self.column0().all_finite() & self.column1().all_finite() & self.column2().all_finite()
    }
}

/// `self * v`
impl Mul<Vector3> for Matrix3 {
    type Output = Vector3;

    ghost mul_gives = { λ m v r. r ≡ (mat_vec m v).value };

    #[tactic(auto, unfolding(crate::specs::Matrices::mat_vec))]
    fn mul(self, v: Vector3) -> Vector3 {
        Vector3 {
            x: self.m00 * v.x + self.m01 * v.y + self.m02 * v.z,
            y: self.m10 * v.x + self.m11 * v.y + self.m12 * v.z,
            z: self.m20 * v.x + self.m21 * v.y + self.m22 * v.z,
        }
    }
}

/// `self * other`, a column of `other` at a time
impl Mul for Matrix3 {
    type Output = Matrix3;

    ghost mul_gives = { λ a b r. r ≡ (mat_mul a b).value };

    #[tactic(auto, unfolding(crate::specs::Matrices::mat_mul))]
    fn mul(self, other: Matrix3) -> Matrix3 {
        let c0 = self * other.column0();
        let c1 = self * other.column1();
        let c2 = self * other.column2();
        Matrix3::from_columns(c0, c1, c2)
    }
}
