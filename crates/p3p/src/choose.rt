//! The choice of a pose by a fourth target, over lent arrays.
ghost use Rattle.std.specs.Prelude.{◌≡◌};
ghost use Rattle.choice.specs.Answer.{number};
ghost use Rattle.lent_answers.specs.Chosen.{best_after, score_after};
ghost use Rattle.p3p.specs.ChooseLent.{chosen};

use frames::lent::vector_at;
use lent_answers::chosen::{poses_in, write_choice};

/// The number from 1 of the pose under which the target lies before the camera and nearest to its
/// bearing, and its score. Returns 0, or the refusal number with nothing written.
#[tactic(auto, unfolding(crate::specs::ChooseLent::chosen))]
#[unsafe(no_mangle)]
pub extern "C" fn p3p_choose(
    poses: &[f64; 48],
    count: u32,
    target: &[f64; 3],
    bearing: &[f64; 3],
    best: &mut u32,
    score: &mut f64,
) -> u32
    ensures value { result
        ≡ number
        (chosen poses.now count target.now bearing.now) }
    ensures best_after { best.new
        ≡ best_after (chosen poses.now count target.now bearing.now)
        best.old }
    ensures score_after { score.new
        ≡ score_after (chosen poses.now count target.now bearing.now)
        score.old }
{
    let slots = poses_in(poses);
    let seen = vector_at(target, 0);
    let ray = vector_at(bearing, 0);
    write_choice(choice::choose::choose(slots, count, seen, ray), best, score)
}
