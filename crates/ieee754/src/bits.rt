//! Doubles and their bit patterns: Rust's from_bits and to_bits, but that there is one NaN. Every
//! NaN's pattern is read as it, and it is written as 7ff8000000000000.
ghost use Rattle.std.specs.Prelude.{◌≡◌};
ghost use Rattle.std.specs.Float.{binary64};
ghost use Rattle.std.specs.Float.Ieee.{of_bits, to_bits};

use ieee754_parts::format::{INFINITY, SIGN};

const NAN: u64 = 0x7ff8_0000_0000_0000;

pub fn from_bits(pattern: u64) -> f64
    ensures { result ≡ of_bits binary64 pattern }
{
    let magnitude = pattern % SIGN;
    if INFINITY < magnitude {
        return f64::NAN;
    }
    f64::from_bits(pattern)
}

pub fn to_bits(x: f64) -> u64
    ensures { result ≡ to_bits binary64 x }
{
    if x.is_nan() { NAN } else { x.to_bits() }
}
