//! The root finders: the arguments, then the refusal number, 0 where nothing is refused, of a
//! quadratic the kind of its pair, and the roots; of the cube root, only the root.
ghost use Rattle.std.specs.Prelude.{◌≡◌};
ghost use Rattle.replay_doubles.specs.RootRecords.{two_agree, pair_agrees, quadratic_holds};
ghost use Rattle.replay_doubles.specs.RootRecords.{root_agrees, cubic_holds, finder_holds};
ghost use Rattle.replay_doubles.specs.RootRecords.{finder_words};

use cubic_parts::fast_cbrt::fast_cbrt;
use polynomial::Roots;
use polynomial::cubic::polished_cubic_root;
use polynomial::quadratic::quadratic_real_monic;
use replay_records::Record;
use replay_records::agreement::Compared;
use replay_records::contents::Stored;
use replay_records::replayed::Replayed;

#[derive(Clone, Copy, Debug, PartialEq, Eq)]
pub enum Finder {
    Quadratic,
    Cubic,
    FastCbrt,
}

// The number 0, the kind and two roots.
#[tactic(auto, unfolding(crate::specs::RootRecords::two_agree))]
fn two_agree(kind: u64, x: f64, y: f64, s: &Record) -> bool
    ensures { result ≡ two_agree kind x y s.now }
{
    let number = 0u64.agrees(s, 16) & kind.agrees(s, 24);
    number & x.agrees(s, 32) & y.agrees(s, 40)
}

// A pair of its kind, or the refusal number.
fn pair_agrees(answer: Roots, s: &Record) -> bool
    ensures { result ≡ pair_agrees answer s.now }
{
    match answer {
        Roots::Two(x, y) => two_agree(0, x, y, s),
        Roots::Double(x) => two_agree(1, x, x, s),
        Roots::Lifted(x) => two_agree(2, x, x, s),
        Roots::One(_) => false,
        Roots::Refused(number) => number.agrees(s, 16),
    }
}

#[tactic(auto, unfolding(crate::specs::RootRecords::quadratic_holds))]
fn quadratic_holds(s: &Record) -> bool
    ensures { result ≡ quadratic_holds s.now }
{
    pair_agrees(quadratic_real_monic(f64::read(s, 0), f64::read(s, 8)), s)
}

// The number 0 and one root, or the refusal number.
fn root_agrees(answer: Roots, s: &Record) -> bool
    ensures { result ≡ root_agrees answer s.now }
{
    match answer {
        Roots::Two(..) | Roots::Double(_) | Roots::Lifted(_) => false,
        Roots::One(x) => 0u64.agrees(s, 24) & x.agrees(s, 32),
        Roots::Refused(number) => number.agrees(s, 24),
    }
}

#[tactic(auto, unfolding(crate::specs::RootRecords::cubic_holds))]
fn cubic_holds(s: &Record) -> bool
    ensures { result ≡ cubic_holds s.now }
{
    let answer = polished_cubic_root(f64::read(s, 0), f64::read(s, 8), f64::read(s, 16));
    root_agrees(answer, s)
}

impl Replayed for Finder {
    ghost words = { finder_words };

    ghost answered = { finder_holds };

    fn length(self) -> usize {
        match self {
            Finder::Quadratic => 48,
            Finder::Cubic => 40,
            Finder::FastCbrt => 16,
        }
    }

    #[tactic(auto, unfolding(crate::specs::RootRecords::finder_holds))]
    fn holds(self, s: &Record) -> bool {
        match self {
            Finder::Quadratic => quadratic_holds(s),
            Finder::Cubic => cubic_holds(s),
            Finder::FastCbrt => fast_cbrt(f64::read(s, 0)).agrees(s, 8),
        }
    }
}
