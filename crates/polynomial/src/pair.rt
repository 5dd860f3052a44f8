//! The pair of a quadratic's answer, and whether it was lifted, which each caller hands on.
ghost use Rattle.std.specs.Prelude.{◌≡◌};
ghost use Rattle.polynomial.specs.Answer.{pair_of};

use crate::Roots;

/// The two roots in their order, and whether they were lifted.
#[derive(Clone, Copy, Debug, PartialEq)]
pub struct RootPair {
    pub first: f64,
    pub second: f64,
    pub lifted: bool,
}

pub fn pair_of(roots: Roots) -> Option<RootPair>
    ensures { result ≡ pair_of roots }
{
    let (first, second, lifted) = match roots {
        Roots::Two(first, second) => (first, second, false),
        Roots::Double(root) => (root, root, false),
        Roots::Lifted(root) => (root, root, true),
        Roots::One(_) | Roots::Refused(_) => return None,
    };
    Some(RootPair {
        first,
        second,
        lifted,
    })
}
