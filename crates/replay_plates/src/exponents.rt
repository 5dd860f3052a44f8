//! The exponent of a power of two in a word: a number of 32 bits, in two's complement of 64.
ghost use Rattle.std.specs.Prelude.{◌≡◌, is_some, IfSome};
ghost use Rattle.replay_plates.specs.Exponents as Exponents;

// The number, where the word is one of 32 bits.
#[tactic(auto, unfolding(crate::specs::Exponents::is_exponent, crate::specs::Exponents::exponent))]
pub(crate) fn exponent(w: u64) -> Option<i32>
    ensures some { is_some result ≡ Exponents.is_exponent w }
    ensures value { IfSome result (λ k. k ≡ Exponents.exponent w) }
{
    i32::try_from(w.cast_signed()).ok()
}
