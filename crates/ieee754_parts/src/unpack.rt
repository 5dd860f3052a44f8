//! A finite double taken apart.
ghost use Rattle.std.specs.Prelude.{T};
ghost use Rattle.std.specs.Float.Ieee.Scale.{finite};
ghost use Rattle.ieee754_parts.specs.Unpacked.{IsUnpacked};

use crate::format::{LEADING, SIGN};

/// The number ±sig * 2^exp / 2^1074.
#[derive(Clone, Copy)]
pub struct Unpacked {
    pub negative: bool,
    pub sig: u64,
    pub exp: u64,
}

/// x by the fields of its bit pattern. The significand has a leading digit more than its field,
/// unless the exponent's field is 0.
pub fn unpack(x: f64) -> Unpacked
    requires { T (finite x) }
    ensures { IsUnpacked x result }
{
    let bits = x.to_bits();
    let negative = SIGN <= bits;
    let field = bits / LEADING % 0x800;
    let digits = bits % LEADING;
    if field == 0 {
        Unpacked {
            negative,
            sig: digits,
            exp: 0,
        }
    } else {
        Unpacked {
            negative,
            sig: LEADING + digits,
            exp: field - 1,
        }
    }
}
