//! The single operations: their arguments, then the result. The answers are those of exact
//! whole-number arithmetic, which tests/ieee754/make.py has.
ghost use Rattle.std.specs.Prelude.{◌≡◌};
ghost use Rattle.replay_doubles.specs.OperationRecords.{operation_holds, operation_words};
ghost use Rattle.replay_doubles.specs.OperationRecords.{order_number};

use replay_records::Record;
use replay_records::agreement::Compared;
use replay_records::contents::Stored;
use replay_records::replayed::Replayed;
use std::cmp::Ordering;

#[derive(Clone, Copy, Debug, PartialEq, Eq)]
pub enum Operation {
    Abs,
    Copysign,
    Max,
    Clamp,
    IsFinite,
    TotalOrder,
    TotalCmp,
    Sqrt,
    Cbrt,
    Fma,
}

// An order as a word.
fn place(order: Ordering) -> u64
    ensures { result ≡ order_number order }
{
    match order {
        Ordering::Less => 0,
        Ordering::Equal => 1,
        Ordering::Greater => 2,
    }
}

impl Replayed for Operation {
    ghost words = { operation_words };

    ghost answered = { operation_holds };

    fn length(self) -> usize {
        match self {
            Operation::Abs => 16,
            Operation::Copysign => 24,
            Operation::Max => 24,
            Operation::Clamp => 32,
            Operation::IsFinite => 16,
            Operation::TotalOrder => 24,
            Operation::TotalCmp => 24,
            Operation::Sqrt => 16,
            Operation::Cbrt => 16,
            Operation::Fma => 32,
        }
    }

    #[tactic(auto, unfolding(crate::specs::OperationRecords::operation_holds))]
    fn holds(self, s: &Record) -> bool {
        let x = f64::read(s, 0);
        let y = f64::read(s, 8);
        let z = f64::read(s, 16);
        match self {
            Operation::Abs => ieee754::abs::abs(x).agrees(s, 8),
            Operation::Copysign => ieee754::copysign::copysign(x, y).agrees(s, 16),
            Operation::Max => ieee754::max::max(x, y).agrees(s, 16),
            Operation::Clamp => ieee754::clamp::clamp(x, y, z).agrees(s, 24),
            Operation::IsFinite => ieee754::is_finite::is_finite(x).agrees(s, 8),
            Operation::TotalOrder => ieee754::total_cmp::total_order(x, y).agrees(s, 16),
            Operation::TotalCmp => place(ieee754::total_cmp::total_cmp(x, y)).agrees(s, 16),
            Operation::Sqrt => ieee754::sqrt::sqrt(x).agrees(s, 8),
            Operation::Cbrt => ieee754::cbrt::cbrt(x).agrees(s, 8),
            Operation::Fma => ieee754::fma::fma(x, y, z).agrees(s, 24),
        }
    }
}
