//! The root finders. Each returns 0, or its refusal number with nothing written.
ghost use Rattle.std.specs.Prelude.{◌≡◌, [], ◌∷◌};
ghost use Rattle.polynomial.specs.Answer.{number};
ghost use Rattle.cubic_parts.specs.FastCbrt.{fast_cbrt};
ghost use Rattle.polynomial.specs.PolishedRoot.{polished_cubic_root};
ghost use Rattle.polynomial.specs.Quadratic.{quadratic_real_monic};
ghost use Rattle.p3p.specs.RootsLent.{roots_after, kind_after};

use polynomial::Roots;
use polynomial::cubic::polished_cubic_root;
use polynomial::quadratic::quadratic_real_monic;

/// The two roots of x^2 + b*x + c, not sorted, and their kind: 0 for two roots, 1 for a
/// discriminant of zero, 2 for one that was lifted to zero.
#[unsafe(no_mangle)]
pub extern "C" fn p3p_quadratic_kind(
    b: f64,
    c: f64,
    first: &mut f64,
    second: &mut f64,
    kind: &mut u32,
) -> u32
    ensures value { result ≡ number (quadratic_real_monic b c).value }
    ensures roots_after { first.new ∷ second.new ∷ []
        ≡ roots_after (quadratic_real_monic b c).value
        (first.old ∷ second.old ∷ []) }
    ensures kind_after { kind.new ≡ kind_after (quadratic_real_monic b c).value kind.old }
{
    match quadratic_real_monic(b, c) {
        Roots::Two(x, y) => {
            *first = x;
            *second = y;
            *kind = 0;
            0
        }
        Roots::Double(x) => {
            *first = x;
            *second = x;
            *kind = 1;
            0
        }
        Roots::Lifted(x) => {
            *first = x;
            *second = x;
            *kind = 2;
            0
        }
        // Never reached: `quadratic-two` in crates/polynomial/proofs/OneAnswer.antt.
        Roots::One(_) => 0,
        Roots::Refused(refusal) => refusal,
    }
}

/// The two roots alone.
#[unsafe(no_mangle)]
pub extern "C" fn p3p_quadratic(b: f64, c: f64, first: &mut f64, second: &mut f64) -> u32
    ensures value { result ≡ number (quadratic_real_monic b c).value }
    ensures roots_after { first.new ∷ second.new ∷ []
        ≡ roots_after (quadratic_real_monic b c).value
        (first.old ∷ second.old ∷ []) }
{
    let mut kind = 0;
    p3p_quadratic_kind(b, c, first, second, &mut kind)
}

/// One real root of x^3 + b*x^2 + c*x + d.
#[unsafe(no_mangle)]
pub extern "C" fn p3p_cubic(b: f64, c: f64, d: f64, root: &mut f64) -> u32
    ensures value { result ≡ number (polished_cubic_root b c d).value }
    ensures root_after { root.new ∷ []
        ≡ roots_after (polished_cubic_root b c d).value (root.old ∷ []) }
{
    match polished_cubic_root(b, c, d) {
        Roots::One(x) => {
            *root = x;
            0
        }
        Roots::Refused(number) => number,
        // Never reached: `cubic-one` in crates/polynomial/proofs/OneAnswer.antt.
        _ => 0,
    }
}

/// The cube root of Cardano's formula.
#[unsafe(no_mangle)]
pub extern "C" fn p3p_fast_cbrt(x: f64) -> f64
    ensures { result ≡ (fast_cbrt x).value }
{
    cubic_parts::fast_cbrt::fast_cbrt(x)
}
