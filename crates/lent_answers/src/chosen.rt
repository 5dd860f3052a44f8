//! The choice of a pose over lent arrays.
ghost use Rattle.std.specs.Prelude.{◌≡◌};
ghost use Rattle.choice.specs.Answer.{number};
ghost use Rattle.lent_answers.specs.Chosen.{poses_in, best_after, score_after};

use choice::choose::{Choice, number};
use frames::lent::pose_at;
use frames::pose::Pose;

/// The four slots as `write_answer` writes them.
#[tactic(auto, unfolding(crate::specs::Chosen::poses_in))]
pub fn poses_in(xs: &[f64; 48]) -> [Pose; 4]
    ensures { result ≡ poses_in xs.now }
{
    [
        pose_at(xs, 0),
        pose_at(xs, 12),
        pose_at(xs, 24),
        pose_at(xs, 36),
    ]
}

/// Writes a choice. Returns its refusal number, 0 where it was written.
pub fn write_choice(choice: Choice, best: &mut u32, score: &mut f64) -> u32
    ensures value { result ≡ number choice }
    ensures best_after { best.new ≡ best_after choice best.old }
    ensures score_after { score.new ≡ score_after choice score.old }
{
    if let Ok(chosen) = choice {
        *best = chosen.place;
        *score = chosen.score;
    }
    number(choice)
}
