//! The parts of a double's bit pattern: the sign, the exponent's field and the digits of the
//! significand.

/// The weight of the exponent's field. It is also that of the significand's leading digit, which
/// the pattern of a normal number leaves out.
pub const LEADING: u64 = 0x10_0000_0000_0000;

/// The pattern of plus infinity: those of the finite numbers with a clear sign are below, and those
/// of NaNs above.
pub const INFINITY: u64 = 0x7ff0_0000_0000_0000;

/// The weight of the sign.
pub const SIGN: u64 = 0x8000_0000_0000_0000;
