//! nalgebra's Vector3<f64>: the operations that the solver uses.
ghost use Rattle.std.specs.Prelude.{◌≡◌};
ghost use Rattle.linalg.specs.Vectors.{vec_sub, vec_add, vec_mul, vec_div, dot, norm_squared};
ghost use Rattle.linalg.specs.Vectors.{norm, cross, abs_sum, all_finite, zeros};

use ieee754::abs::abs;
use ieee754::is_finite::is_finite;
use ieee754::sqrt::sqrt;
use std::ops::{Add, Div, Mul, Sub};

#[derive(Clone, Copy)]
pub struct Vector3 {
    pub x: f64,
    pub y: f64,
    pub z: f64,
}

impl Vector3 {
    pub fn zeros() -> Self
        ensures { result ≡ zeros }
    {
        Self {
            x: 0.0,
            y: 0.0,
            z: 0.0,
        }
    }

    #[tactic(auto, unfolding(crate::specs::Vectors::dot))]
    pub fn dot(self, other: Vector3) -> f64
        ensures { result ≡ (dot self other).value }
    {
        self.x * other.x + self.y * other.y + self.z * other.z
    }

    #[tactic(auto, unfolding(crate::specs::Vectors::norm_squared))]
    pub fn norm_squared(self) -> f64
        ensures { result ≡ (norm_squared self).value }
    {
        self.dot(self)
    }

    #[tactic(auto, unfolding(crate::specs::Vectors::norm))]
    pub fn norm(self) -> f64
        ensures { result ≡ (norm self).value }
    {
        sqrt(self.norm_squared())
    }

    #[tactic(auto, unfolding(crate::specs::Vectors::cross))]
    pub fn cross(self, other: Vector3) -> Vector3
        ensures { result ≡ (cross self other).value }
    {
        Vector3 {
            x: self.y * other.z - self.z * other.y,
            y: self.z * other.x - self.x * other.z,
            z: self.x * other.y - self.y * other.x,
        }
    }

    /// `self.abs().sum()`
    #[tactic(auto, unfolding(crate::specs::Vectors::abs_sum))]
    pub fn abs_sum(self) -> f64
        ensures { result ≡ (abs_sum self).value }
    {
        0.0 + abs(self.x) + abs(self.y) + abs(self.z)
    }

    /// `self.iter().all(|value| value.is_finite())`
    #[tactic(auto, unfolding(crate::specs::Vectors::all_finite))]
    pub fn all_finite(self) -> bool
        ensures { result ≡ all_finite self }
    {
        is_finite(self.x) & is_finite(self.y) & is_finite(self.z)
    }
}

/// `self - other`
impl Sub for Vector3 {
    type Output = Vector3;

    ghost sub_gives = { λ a b r. r ≡ (vec_sub a b).value };

    #[tactic(auto, unfolding(crate::specs::Vectors::vec_sub))]
    fn sub(self, other: Vector3) -> Vector3 {
        Vector3 {
            x: self.x - other.x,
            y: self.y - other.y,
            z: self.z - other.z,
        }
    }
}

/// `self + other`
impl Add for Vector3 {
    type Output = Vector3;

    ghost add_gives = { λ a b r. r ≡ (vec_add a b).value };

    #[tactic(auto, unfolding(crate::specs::Vectors::vec_add))]
    fn add(self, other: Vector3) -> Vector3 {
        Vector3 {
            x: self.x + other.x,
            y: self.y + other.y,
            z: self.z + other.z,
        }
    }
}

/// `self * s`, and `s * self`
impl Mul<f64> for Vector3 {
    type Output = Vector3;

    ghost mul_gives = { λ v s r. r ≡ (vec_mul v s).value };

    #[tactic(auto, unfolding(crate::specs::Vectors::vec_mul))]
    fn mul(self, s: f64) -> Vector3 {
        Vector3 {
            x: self.x * s,
            y: self.y * s,
            z: self.z * s,
        }
    }
}

/// `self / s`
impl Div<f64> for Vector3 {
    type Output = Vector3;

    ghost div_gives = { λ v s r. r ≡ (vec_div v s).value };

    #[tactic(auto, unfolding(crate::specs::Vectors::vec_div))]
    fn div(self, s: f64) -> Vector3 {
        Vector3 {
            x: self.x / s,
            y: self.y / s,
            z: self.z / s,
        }
    }
}
