//! The pose with the lowest finite score, the earlier one on a tie: best_by of pose/p3p/common.rs,
//! with a score only where the target lies before the camera.
ghost use Rattle.std.specs.Prelude.{◌≡◌};
ghost use Rattle.choice.specs.Answer as Answer;
ghost use Rattle.choice.specs.Choose as Choose;

use crate::count::at_most_four;
use crate::score::score;
use frames::pose::Pose;
use ieee754::is_finite::is_finite;
use linalg::vector3::Vector3;

/// The chosen pose.
#[derive(Clone, Copy)]
pub struct Best {
    /// Its place, from 1.
    pub place: u32,
    pub score: f64,
}

/// The chosen pose, or the number of the refusal.
pub type Choice = Result<Best, u32>;

/// The refusal number of a choice, and 0 where a pose is chosen.
pub fn number(choice: Choice) -> u32
    ensures { result ≡ Answer.number choice }
{
    match choice {
        Ok(_) => 0,
        Err(refusal) => refusal,
    }
}

/// A finite score beside the choice so far: the lower one, and the earlier on a tie.
#[tactic(auto, unfolding(crate::specs::Choose::lower))]
pub fn lower(best: Choice, place: u32, value: f64) -> Choice
    ensures { result ≡ Choose.lower best place value }
{
    let next = Best {
        place,
        score: value,
    };
    match best {
        Err(_) => Ok(next),
        Ok(held) => Ok(if value < held.score { next } else { held }),
    }
}

/// The choice so far with one pose more, which takes it where its score is finite and the lowest.
#[tactic(auto, unfolding(crate::specs::Choose::better))]
pub fn better(best: Choice, place: u32, scored: Option<f64>) -> Choice
    ensures { result ≡ Choose.better best place scored }
{
    match scored {
        Some(value) if is_finite(value) => lower(best, place, value),
        _ => best,
    }
}

/// The choice among the first `count` poses, and `Err(10)` where none of them has a finite score.
#[tactic(auto, using(crate::proofs::Turns::turn), unfolding(crate::specs::Choose::choose, crate::specs::Choose::choose_among))]
pub fn choose(poses: [Pose; 4], count: u32, target: Vector3, bearing: Vector3) -> Choice
    ensures { result ≡ (Choose.choose poses count target bearing).value }
{
    let n = at_most_four(count) as usize;
    let mut best = Err(10);
    for (at, pose) in poses[..n].iter().enumerate() {
        best = better(best, at as u32 + 1, score(*pose, target, bearing));
    }
    best
}
