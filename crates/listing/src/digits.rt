//! Numbers in decimal and in hexadecimal.
ghost use Rattle.std.specs.Prelude.{◌≡◌, ◌+◌, ◌<◌, ◌≤◌, ◌++◌, length, decimal};
ghost use Rattle.listing.specs.Digits.{hexadecimal};
ghost use Rattle.listing.specs.Digits.{glyph as Digits·glyph};

use crate::put::put_text;
use arrayvec::ArrayVec;

// The character of a digit below 16.
fn glyph(digit: u8) -> u8
    requires { digit < 16 }
    ensures { result ≡ Digits·glyph digit }
{
    if digit < 10 {
        b'0' + digit
    } else {
        b'a' - 10 + digit
    }
}

// Puts n in decimal, with no zero in front.
pub(crate) fn put_number<const N: usize>(out: &mut ArrayVec<u8, N>, n: u64)
    requires { length out.old.items + 20 ≤ N }
    ensures text { out.new.items ≡ out.old.items ++ decimal n }
    ensures upper_bound { length out.new.items ≤ length out.old.items + 20 }
{
    let mut digits = itoa::Buffer::new();
    put_text(out, digits.format(n));
}

// Puts the sixteen hexadecimal digits of a word.
pub(crate) fn put_word<const N: usize>(out: &mut ArrayVec<u8, N>, word: u64)
    requires { length out.old.items + 16 ≤ N }
    ensures text { out.new.items ≡ out.old.items ++ hexadecimal 16 word }
    ensures value { length out.new.items ≡ length out.old.items + 16 }
{
    for place in 0..16u32 {
        let digits = word >> (60 - 4 * place);
        out.push(glyph((digits % 16) as u8));
    }
}
