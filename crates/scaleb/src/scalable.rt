//! Where 2^k times a double is zero or in the normal range.
ghost use Rattle.std.specs.Prelude.{◌≡◌};
ghost use Rattle.scaleb.specs.Scalable.{scalable};

use crate::reach::Reach;
use ieee754::is_finite::is_finite;
use ieee754_parts::normal::normalise;
use ieee754_parts::unpack::unpack;

/// x has 53 digits at 2^exp / 2^1126, and 2^k times it at 2^moved / 2^1190. So the leading one is
/// at 2^-1022 at least where moved is 116 at least, and at 2^1023 at most where moved is 2161 at
/// most. (A test of the rounded product would accept 2^-1021 - 2^-1074 at k = -1.)
pub fn is_scalable(x: f64, reach: Reach) -> bool
    ensures { result ≡ scalable reach.k x }
{
    if !is_finite(x) {
        return false;
    }
    let a = unpack(x);
    if a.sig == 0 {
        return true;
    }
    let n = normalise(a.sig, a.exp);
    let moved = n.exp + reach.from_lowest();
    (116 <= moved) & (moved <= 2161)
}
