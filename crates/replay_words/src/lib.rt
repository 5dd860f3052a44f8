//! Words of 64 bits, most significant byte first, each a number or the bit pattern of a double:
//! what the files of stored answers are made of.
#![tactic(auto)]

ghost use Rattle.std.specs.Prelude.{◌≡◌, ◌+◌, ◌≤◌, eqb, get_or};
ghost use Rattle.std.specs.Float.{binary64};
ghost use Rattle.std.specs.Float.Ieee.{to_bits};
ghost use Rattle.replay_words.specs.Words.{half_at, word_at};

use ieee754::bits::to_bits;

pub mod report;

// The byte i places after `at`, or 0 past the end.
fn byte(s: &[u8], at: usize, i: usize) -> u8
    ensures { result ≡ get_or s.now (at + i) 0 }
{
    match at.checked_add(i) {
        Some(place) if place < s.len() => s[place],
        _ => 0,
    }
}

// The number of the four bytes from i places after `at` on.
fn half(s: &[u8], at: usize, i: usize) -> u32
    requires { i ≤ 4 }
    ensures { result ≡ half_at s.now at i }
{
    u32::from_be_bytes([
        byte(s, at, i),
        byte(s, at, i + 1),
        byte(s, at, i + 2),
        byte(s, at, i + 3),
    ])
}

/// The word of the eight bytes from `at` on.
#[tactic(auto, unfolding(crate::specs::Words::word_at))]
pub fn word(s: &[u8], at: usize) -> u64
    ensures { result ≡ word_at s.now at }
{
    u64::from(half(s, at, 0)) * 0x1_0000_0000 + u64::from(half(s, at, 4))
}

/// Whether x has the bit pattern w.
pub fn agrees(x: f64, w: u64) -> bool
    ensures { result ≡ eqb (to_bits binary64 x) w }
{
    to_bits(x) == w
}
