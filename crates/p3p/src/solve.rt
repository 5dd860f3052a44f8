//! The solve of eighteen doubles over lent arrays.
ghost use Rattle.std.specs.Prelude.{◌≡◌};
ghost use Rattle.lent_answers.specs.Solved.{poses_after, updates_after, lifted_after, count_after};
ghost use Rattle.p3p.specs.SolveLent.{solved};

use frames::lent::{bearings_at, world_at};
use lent_answers::solved::write_answer;

/// The poses of three world points and the bearings to them. Returns 0, or the refusal number with
/// nothing written.
#[tactic(auto, unfolding(crate::specs::SolveLent::solved))]
#[unsafe(no_mangle)]
pub extern "C" fn p3p_solve(
    input: &[f64; 18],
    poses: &mut [f64; 48],
    updates: &mut [u32; 4],
    lifted: &mut [u32; 4],
    count: &mut u32,
) -> u32
    ensures value { result ≡ (solved input.now).refusal }
    ensures poses_after { poses.new ≡ poses_after (solved input.now) poses.old }
    ensures updates_after { updates.new
        ≡ updates_after (solved input.now) updates.old }
    ensures lifted_after { lifted.new
        ≡ lifted_after (solved input.now) lifted.old }
    ensures count_after { count.new ≡ count_after (solved input.now) count.old }
{
    let answer = lambdatwist::solve::solve(world_at(input, 0), bearings_at(input, 9));
    write_answer(answer, poses, updates, lifted, count)
}
