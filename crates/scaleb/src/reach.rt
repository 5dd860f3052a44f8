//! The exponents k of the factors 2^k: from -64 to 64.
ghost use Rattle.std.specs.Prelude.{◌≡◌, ◌≤◌, pos, neg_ℤ, ◌+ℤ◌, ◌≤ℤ◌, is_some, IfSome};
ghost use Rattle.scaleb.specs.Scalable.{in_reach};

/// An exponent from -64 to 64.
#[derive(Clone, Copy)]
pub struct Reach {
    pub k: i32,
    ghost low: { neg_ℤ (pos 64) ≤ℤ k },
    ghost high: { k ≤ℤ pos 64 },
}

impl Reach {
    /// None where k is not one of them.
    #[tactic(auto, unfolding(crate::specs::Scalable::in_reach))]
    pub fn new(k: i32) -> Option<Reach>
        ensures some { is_some result ≡ in_reach k }
        ensures value { IfSome result (λ reach. reach.k ≡ k) }
    {
        if -64 <= k && k <= 64 {
            Some(Reach { k })
        } else {
            None
        }
    }

    // k counted from the lowest one.
    pub(crate) fn from_lowest(self) -> u64
        ensures few { result ≤ 128 }
        ensures counts { pos result ≡ self.k +ℤ pos 64 }
    {
        (self.k + 64) as u64
    }
}
