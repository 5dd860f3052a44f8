//! The scale of a cubic's variable, by which its coefficients come near to one:
//! cubic_variable_scale of shared/polynomial.rs.
ghost use Rattle.std.specs.Prelude.{◌≡◌};
ghost use Rattle.cubic_parts.specs.CubicScale.{all_zero, large, tiny, root_magnitude};
ghost use Rattle.cubic_parts.specs.CubicScale.{cubic_variable_scale, normalised};

use crate::Monic;
use ieee754::abs::abs;
use ieee754::cbrt::cbrt;
use ieee754::max::max;
use ieee754::sqrt::sqrt;

impl Monic {
    #[tactic(auto, unfolding(crate::specs::CubicScale::all_zero))]
    pub fn all_zero(self) -> bool
        ensures { result ≡ all_zero self.b self.c self.d }
    {
        self.b == 0.0 && self.c == 0.0 && self.d == 0.0
    }

    #[tactic(auto, unfolding(crate::specs::CubicScale::large))]
    fn large(self) -> bool
        ensures { result ≡ large self.b self.c self.d }
    {
        abs(self.b) > 1e50 || abs(self.c) > 1e100 || abs(self.d) > 1e150
    }

    #[tactic(auto, unfolding(crate::specs::CubicScale::tiny))]
    fn tiny(self) -> bool
        ensures { result ≡ tiny self.b self.c self.d }
    {
        abs(self.b) < 1e-50 && abs(self.c) < 1e-100 && abs(self.d) < 1e-150
    }

    #[tactic(auto, unfolding(crate::specs::CubicScale::root_magnitude))]
    fn root_magnitude(self) -> f64
        ensures { result ≡ (root_magnitude self.b self.c self.d).value }
    {
        max(max(abs(self.b), sqrt(abs(self.c))), cbrt(abs(self.d)))
    }

    /// One, but for coefficients of which one is large or all are tiny.
    #[tactic(auto, unfolding(crate::specs::CubicScale::cubic_variable_scale))]
    pub fn variable_scale(self) -> f64
        ensures { result ≡ (cubic_variable_scale self.b self.c self.d).value }
    {
        if self.all_zero() {
            return 1.0;
        }
        if self.large() || self.tiny() {
            self.root_magnitude()
        } else {
            1.0
        }
    }

    /// The cubic whose variable is x / variable_scale.
    #[tactic(auto, unfolding(crate::specs::CubicScale::normalised))]
    pub fn normalised(self, variable_scale: f64) -> Monic
        ensures { result ≡ (normalised self.b self.c self.d variable_scale).value }
    {
        if variable_scale == 1.0 {
            return self;
        }
        let inverse = 1.0 / variable_scale;
        let inverse_squared = inverse * inverse;
        Monic {
            b: self.b * inverse,
            c: self.c * inverse_squared,
            d: self.d * inverse_squared * inverse,
        }
    }
}
