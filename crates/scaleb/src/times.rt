//! 2^k times a double.
ghost use Rattle.std.specs.Prelude.{◌≡◌, false, T};
ghost use Rattle.std.specs.Float.{fin};
ghost use Rattle.ieee754.specs.Scaling.{scale};
ghost use Rattle.scaleb.specs.Scalable.{scalable};

use crate::reach::Reach;
use ieee754_parts::format::LEADING;
use ieee754_parts::pack::pack_finite;

// 2^k: LEADING is 2^52, at 2^(k + 1022) / 2^1074.
fn power_of_two(reach: Reach) -> f64
    ensures { result ≡ fin false 1 reach.k }
{
    pack_finite(false, LEADING, reach.from_lowest() + 958)
}

/// 2^k times x, exactly. A zero keeps its sign.
pub fn scaleb(x: f64, reach: Reach) -> f64
    requires { T (scalable reach.k x) }
    ensures { result ≡ scale reach.k x }
{
    x * power_of_two(reach)
}
