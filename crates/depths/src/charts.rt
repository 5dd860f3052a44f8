//! The two charts of solve_ordered (lambdatwist.rs): from the null vector of one sign to at most
//! two depth candidates, one for each root of the chart's quadratic. Where the quadratic refuses,
//! only that sign's turn ends. No chart takes the candidates found before it, so that none waits
//! for another. Whether the pair of roots was lifted is handed on.
ghost use Rattle.std.specs.Prelude.{◌≡◌, Bool};
ghost use Rattle.depths.specs.DepthSlots.{push_if_positive};
ghost use Rattle.depths.specs.Pushed.{pushed, pushed_both};
ghost use Rattle.depths.specs.Types.{Candidates};
ghost use Rattle.depths.specs.Charts as Charts;

use frames::squared_edges::SquaredEdges;
use ieee754::abs::abs;
use ieee754::is_finite::is_finite;
use ieee754::sqrt::sqrt;
use linalg::vector3::Vector3;
use orderings::angles::Factors;
use polynomial::pair::pair_of;
use polynomial::quadratic::quadratic_real_monic;

/// Whether a value is a zero, or not finite.
#[tactic(auto, unfolding(crate::specs::Charts::no_divisor))]
pub fn no_divisor(denominator: f64) -> bool
    ensures { result ≡ Charts.no_divisor denominator }
{
    denominator == 0.0 || !is_finite(denominator)
}

/// The depths that a chart gives for the two roots of its quadratic, and whether these were lifted.
#[derive(Clone, Copy)]
pub struct ChartDepths {
    pub lifted: bool,
    pub first: Option<Vector3>,
    pub second: Option<Vector3>,
}

impl ChartDepths {
    #[tactic(auto, unfolding(crate::specs::Pushed::pushed))]
    fn none() -> Self
        ensures { (found : Candidates) → pushed_both found result ≡ found }
    {
        Self {
            lifted: false,
            first: None,
            second: None,
        }
    }
}

/// The depths, where `depth`, one of them, is above zero: the first half of the Rust's test; `push`
/// asks for room.
#[tactic(auto, unfolding(crate::specs::Pushed::pushed, crate::specs::DepthSlots::push_if_positive))]
fn if_positive(depth: f64, depths: Vector3) -> Option<Vector3>
    ensures { (found : Candidates) (lifted : Bool) →
        pushed found result lifted ≡ push_if_positive found depth depths lifted }
{
    (depth > 0.0).then_some(depths)
}

/// What both charts take of the points and bearings: the squared edges, and the factors of the
/// bearings' cosines.
#[derive(Clone, Copy)]
pub struct Triangle {
    pub squares: SquaredEdges,
    pub factors: Factors,
}

impl Triangle {
    /// One root of the first chart's quadratic.
    #[tactic(auto, unfolding(crate::specs::Pushed::pushed, crate::specs::Charts::first_chart_depths))]
    pub fn first_chart_depths(self, null_vector: Vector3, tau: f64) -> Option<Vector3>
        ensures { (found : Candidates) (lifted : Bool) →
            pushed found result lifted
            ≡ (Charts.first_chart_depths self.squares self.factors null_vector lifted found
            tau).value }
    {
        let Vector3 {
            x: u0,
            y: u1,
            z: u2,
        } = null_vector;
        let depth_denominator = tau * (tau + self.factors.b02) + 1.0;
        if tau <= 0.0 || depth_denominator <= 0.0 {
            return None;
        }
        let depth0 = sqrt(self.squares.a02 / depth_denominator);
        let depth2 = tau * depth0;
        let depth1 = -(u0 * depth0 + u2 * depth2) / u1;
        let depths = Vector3 {
            x: depth0,
            y: depth1,
            z: depth2,
        };
        if_positive(depth1, depths)
    }

    #[tactic(auto, unfolding(crate::specs::Charts::first_chart, crate::specs::Charts::for_roots))]
    pub fn first_chart(self, null_vector: Vector3) -> ChartDepths
        ensures { (found : Candidates) →
            pushed_both found result
            ≡ (Charts.first_chart self.squares self.factors null_vector found).value }
    {
        let SquaredEdges { a01, a12, .. } = self.squares;
        let Factors { b01, b12, .. } = self.factors;
        let Vector3 {
            x: u0,
            y: u1,
            z: u2,
        } = null_vector;
        let denominator = (a12 - a01) * u2 * u2 - a01 * u1 * u1 + a01 * b12 * u1 * u2;
        if no_divisor(denominator) {
            return ChartDepths::none();
        }
        let quadratic_b = (2.0 * (a12 - a01) * u0 * u2 + a01 * b12 * u0 * u1 - a12 * b01 * u1 * u2)
            / denominator;
        let quadratic_c = ((a12 - a01) * u0 * u0 + a12 * u1 * u1 - a12 * b01 * u0 * u1)
            / denominator;
        let roots = quadratic_real_monic(quadratic_b, quadratic_c);
        let Some(pair) = pair_of(roots) else {
            return ChartDepths::none();
        };
        ChartDepths {
            lifted: pair.lifted,
            first: self.first_chart_depths(null_vector, pair.first),
            second: self.first_chart_depths(null_vector, pair.second),
        }
    }

    /// One root of the second chart's quadratic.
    #[tactic(auto, unfolding(crate::specs::Pushed::pushed, crate::specs::Charts::second_chart_depths))]
    pub fn second_chart_depths(self, w0: f64, w1: f64, tau: f64) -> Option<Vector3>
        ensures { (found : Candidates) (lifted : Bool) →
            pushed found result lifted
            ≡ (Charts.second_chart_depths self.squares self.factors w0 w1 lifted found
            tau).value }
    {
        let depth_denominator = tau * (self.factors.b12 + tau) + 1.0;
        if tau <= 0.0 || depth_denominator <= 0.0 {
            return None;
        }
        let depth1 = sqrt(self.squares.a12 / depth_denominator);
        let depth2 = tau * depth1;
        let depth0 = w0 * depth1 + w1 * depth2;
        let depths = Vector3 {
            x: depth0,
            y: depth1,
            z: depth2,
        };
        if_positive(depth0, depths)
    }

    /// The second chart, by the weights w0 and w1.
    #[tactic(auto, unfolding(crate::specs::Charts::weight_chart, crate::specs::Charts::for_roots))]
    pub fn weight_chart(self, w0: f64, w1: f64) -> ChartDepths
        ensures { (found : Candidates) →
            pushed_both found result
            ≡ (Charts.weight_chart self.squares self.factors w0 w1 found).value }
    {
        let SquaredEdges { a01, a02, .. } = self.squares;
        let Factors { b01, b02, .. } = self.factors;
        let denominator = (a02 - a01) * w1 * w1 - a01 * b02 * w1 - a01;
        if no_divisor(denominator) {
            return ChartDepths::none();
        }
        let quadratic_b = (a02 * b01 * w1 - a01 * b02 * w0 - 2.0 * w0 * w1 * (a01 - a02))
            / denominator;
        let quadratic_c = ((a02 - a01) * w0 * w0 + a02 * b01 * w0 + a02) / denominator;
        let roots = quadratic_real_monic(quadratic_b, quadratic_c);
        let Some(pair) = pair_of(roots) else {
            return ChartDepths::none();
        };
        ChartDepths {
            lifted: pair.lifted,
            first: self.second_chart_depths(w0, w1, pair.first),
            second: self.second_chart_depths(w0, w1, pair.second),
        }
    }

    #[tactic(auto, unfolding(crate::specs::Charts::second_chart))]
    pub fn second_chart(self, null_vector: Vector3) -> ChartDepths
        ensures { (found : Candidates) →
            pushed_both found result
            ≡ (Charts.second_chart self.squares self.factors null_vector found).value }
    {
        let Vector3 {
            x: u0,
            y: u1,
            z: u2,
        } = null_vector;
        if no_divisor(u0) {
            return ChartDepths::none();
        }
        let inverse = -(1.0 / u0);
        let w0 = u1 * inverse;
        let w1 = u2 * inverse;
        self.weight_chart(w0, w1)
    }

    #[tactic(auto, unfolding(crate::specs::Charts::chart))]
    pub fn chart(self, null_vector: Vector3) -> ChartDepths
        ensures { (found : Candidates) →
            pushed_both found result
            ≡ (Charts.chart self.squares self.factors null_vector found).value }
    {
        if abs(null_vector.x) < abs(null_vector.y) {
            self.first_chart(null_vector)
        } else {
            self.second_chart(null_vector)
        }
    }
}
