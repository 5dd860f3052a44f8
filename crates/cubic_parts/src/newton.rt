//! Newton's method on a cubic: the loop of polished_cubic_root of shared/polynomial.rs.
ghost use Rattle.std.specs.Prelude.{◌≡◌};
ghost use Rattle.cubic_parts.specs.Newton.{newton_step, newton_steps};

use crate::Monic;
use crate::cubic_start::cubic_value;
use ieee754::abs::abs;
use ieee754::is_finite::is_finite;

// The next root, unless the value is small already, or the step leaves the finite numbers or makes
// the value greater.
#[tactic(auto, unfolding(crate::specs::Newton::newton_step))]
fn newton_step(m: Monic, root: f64) -> Option<f64>
    ensures { result ≡ (newton_step m root).value }
{
    let value = cubic_value(m, root);
    if abs(value) < 1e-14 {
        return None;
    }
    let derivative = (3.0 * root + 2.0 * m.b) * root + m.c;
    if !is_finite(value) || !is_finite(derivative) || derivative == 0.0 {
        return None;
    }
    let candidate = root - value / derivative;
    if !is_finite(candidate) || abs(cubic_value(m, candidate)) > abs(value) {
        return None;
    }
    Some(candidate)
}

/// At most four steps.
#[tactic(auto, using(crate::proofs::NewtonTurns::step_stops, crate::proofs::NewtonTurns::step_goes, crate::proofs::NewtonTurns::steps_end))]
pub fn newton_steps(m: Monic, start: f64) -> f64
    ensures { result ≡ (newton_steps 4 m start).value }
{
    let mut root = start;
    for _ in 0..4u32 {
        let Some(next) = newton_step(m, root) else {
            return root;
        };
        root = next;
    }
    root
}
