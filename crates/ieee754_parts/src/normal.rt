//! Numbers with their leading digit brought to a fixed place.
ghost use Rattle.std.specs.Prelude.{◌<◌, ◌≤◌};
ghost use Rattle.ieee754_parts.specs.Normal.{IsNormal, IsRoundable};
ghost use Rattle.ieee754_parts.specs.Unpacked.{IsSignificand};

use crate::format::LEADING;
use crate::wide::{Wide, jam_wide};

/// sig * 2^exp.
#[derive(Clone, Copy)]
pub struct Scaled {
    pub sig: u64,
    pub exp: u64,
}

/// sig * 2^exp * 2^52, with 53 digits in the significand: those of a subnormal number are moved up.
pub fn normalise(sig: u64, exp: u64) -> Scaled
    requires { IsSignificand sig exp × (0 < sig) }
    ensures { IsNormal sig exp result }
{
    if LEADING <= sig {
        Scaled { sig, exp: exp + 52 }
    } else {
        let zeros = sig.leading_zeros();
        Scaled {
            sig: sig << (zeros - 11),
            exp: 63 - u64::from(zeros),
        }
    }
}

// v * 2^exp, or a number that rounds as it does, with 64 digits in the significand; and zero.
pub(crate) fn normalise_wide(v: Wide, exp: u64) -> Scaled
    requires { (64 ≤ exp) × (exp < 4900) }
    ensures { IsRoundable v exp result }
{
    if v.hi != 0 {
        let n = 64 - u64::from(v.hi.leading_zeros());
        let top = jam_wide(v, n);
        Scaled {
            sig: top.lo,
            exp: exp + n,
        }
    } else if v.lo != 0 {
        let n = u64::from(v.lo.leading_zeros());
        Scaled {
            sig: v.lo << n,
            exp: exp - n,
        }
    } else {
        Scaled { sig: 0, exp: 0 }
    }
}
