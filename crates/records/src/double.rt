//! A double by the eight bytes of its bit pattern.
ghost use Rattle.std.specs.Prelude.{◌≡◌, ◌+◌, ◌≤◌, length};
ghost use Rattle.records.specs.Format.{double_at};

use byteorder::{BigEndian, ByteOrder};
use ieee754::bits::from_bits;

// The double whose eight bytes begin at `at`.
pub(crate) fn double_at(s: &[u8], at: usize) -> f64
    requires { at + 8 ≤ length s.now }
    ensures { result ≡ double_at s.now at }
{
    from_bits(BigEndian::read_u64(&s[at..]))
}
