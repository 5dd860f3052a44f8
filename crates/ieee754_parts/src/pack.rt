//! A double put together from a rounded significand.
ghost use Rattle.std.specs.Prelude.{◌≡◌, ◌+◌, ◌*◌, ◌^◌, ◌<◌, ◌≤◌, min, from_bits};
ghost use Rattle.std.specs.Float.{binary64};
ghost use Rattle.std.specs.Float.Ieee.{units};
ghost use Rattle.ieee754_parts.specs.Unpacked.{sign_bit};

use crate::format::{INFINITY, LEADING, SIGN};

// The sign's bit of a pattern.
fn sign_bit(negative: bool) -> u64
    ensures { result ≡ sign_bit negative }
{
    if negative { SIGN } else { 0 }
}

// The double whose pattern is `bits` with the sign's bit.
fn with_sign(negative: bool, bits: u64) -> f64
    requires { bits ≤ 0x7ff0_0000_0000_0000 }
    ensures { result ≡ from_bits binary64 (sign_bit negative + bits) }
{
    f64::from_bits(sign_bit(negative) + bits)
}

// A pattern, or the infinity's where it is past that.
fn capped(bits: u64) -> u64
    ensures { result ≡ min bits 0x7ff0_0000_0000_0000 }
{
    if bits < INFINITY { bits } else { INFINITY }
}

/// ±sig * 2^exp / 2^1074, which is finite. The pattern has exp for the exponent's field, to which
/// the leading digit of sig adds one, and so does a sig of 2^53, which a rounding up leaves.
pub fn pack_finite(negative: bool, sig: u64, exp: u64) -> f64
    requires { (sig ≤ 2 ^ 53)
        × (0 < exp → 2 ^ 52 ≤ sig)
        × (exp * 2 ^ 52 + sig < 0x7ff0_0000_0000_0000) }
    ensures { result ≡ units binary64 negative sig exp }
{
    with_sign(negative, exp * LEADING + sig)
}

// ±sig * 2^exp / 2^1074. From the pattern of the infinity on it is one. (The bound on exp keeps the
// sum from wrapping.)
pub(crate) fn pack(negative: bool, sig: u64, exp: u64) -> f64
    requires { (sig ≤ 2 ^ 53) × (0 < exp → 2 ^ 52 ≤ sig) × (exp < 4000) }
    ensures { result ≡ units binary64 negative sig exp }
{
    let bits = exp * LEADING + sig;
    with_sign(negative, capped(bits))
}
