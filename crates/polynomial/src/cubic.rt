//! One real root of a monic cubic: polished_cubic_root of shared/polynomial.rs.
ghost use Rattle.std.specs.Prelude.{◌≡◌};
ghost use Rattle.polynomial.specs.PolishedRoot.{rescaled_root, polished_root};
ghost use Rattle.polynomial.specs.PolishedRoot.{polished_cubic_root};

use crate::Roots;
use cubic_parts::Monic;
use cubic_parts::cubic_start::start_root;
use cubic_parts::newton::newton_steps;
use ieee754::is_finite::is_finite;

// Polished, and back to the scale of the coefficients.
#[tactic(auto, unfolding(crate::specs::PolishedRoot::rescaled_root))]
fn rescaled_root(m: Monic, variable_scale: f64, start: f64) -> Roots
    ensures { result ≡ (rescaled_root m variable_scale start).value }
{
    let root = newton_steps(m, start) * variable_scale;
    if is_finite(root) {
        Roots::One(root)
    } else {
        Roots::Refused(6)
    }
}

#[tactic(auto, unfolding(crate::specs::PolishedRoot::polished_root))]
fn polished_root(given: Monic) -> Roots
    ensures { result ≡ (polished_root given.b given.c given.d).value }
{
    let variable_scale = given.variable_scale();
    let m = given.normalised(variable_scale);
    let Some(start) = start_root(m) else {
        return Roots::Refused(6);
    };
    rescaled_root(m, variable_scale, start)
}

/// One polished real root of x^3 + b*x^2 + c*x + d = 0. Where it has three, the start outside the
/// nearest turning point finds the branch that the conic-pencil reduction of the three-point pose
/// problem needs.
#[tactic(auto, unfolding(crate::specs::PolishedRoot::polished_cubic_root))]
pub fn polished_cubic_root(b: f64, c: f64, d: f64) -> Roots
    ensures { result ≡ (polished_cubic_root b c d).value }
{
    if !is_finite(b) || !is_finite(c) || !is_finite(d) {
        return Roots::Refused(4);
    }
    let m = Monic { b, c, d };
    if m.all_zero() {
        Roots::One(0.0)
    } else {
        polished_root(m)
    }
}
