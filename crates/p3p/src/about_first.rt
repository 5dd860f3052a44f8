//! The solve about the first target and its choice, over lent arrays.
ghost use Rattle.std.specs.Prelude.{◌≡◌};
ghost use Rattle.choice.specs.Answer.{number};
ghost use Rattle.lent_answers.specs.Solved.{poses_after, updates_after, lifted_after, count_after};
ghost use Rattle.lent_answers.specs.Chosen.{best_after, score_after};
ghost use Rattle.p3p.specs.AboutLent.{solved_about, point_after, origin_after};
ghost use Rattle.p3p.specs.AboutLent.{chosen_about};

use about::choose_about::choose_about;
use about::solve_about::answer_about;
use frames::lent::{bearings_at, vector_at, world_at};
use lent_answers::chosen::{poses_in, write_choice};
use lent_answers::solved::write_answer;
use linalg::vector3::Vector3;

// Writes the point that was subtracted, unless the answer is refused.
#[tactic(auto, unfolding(crate::specs::AboutLent::point_after))]
fn write_origin(refusal: u32, p0: Vector3, origin: &mut [f64; 3])
    ensures { origin.new ≡ point_after refusal p0 origin.old }
{
    if refusal == 0 {
        *origin = [p0.x, p0.y, p0.z];
    }
}

/// The poses, about the first, of three world points and the bearings to them. Returns 0, or the
/// refusal number with nothing written.
#[tactic(auto, unfolding(crate::specs::AboutLent::solved_about, crate::specs::AboutLent::origin_after, crate::specs::AboutLent::point_after, about::specs::SolveAbout::solve_about, about::specs::SolveAbout::with_origin))]
#[unsafe(no_mangle)]
pub extern "C" fn p3p_solve_about(
    input: &[f64; 18],
    poses: &mut [f64; 48],
    updates: &mut [u32; 4],
    lifted: &mut [u32; 4],
    count: &mut u32,
    origin: &mut [f64; 3],
) -> u32
    ensures value { result ≡ (solved_about input.now).answer.refusal }
    ensures poses_after { poses.new
        ≡ poses_after (solved_about input.now).answer poses.old }
    ensures updates_after { updates.new
        ≡ updates_after (solved_about input.now).answer updates.old }
    ensures lifted_after { lifted.new
        ≡ lifted_after (solved_about input.now).answer lifted.old }
    ensures count_after { count.new
        ≡ count_after (solved_about input.now).answer count.old }
    ensures origin_after { origin.new
        ≡ origin_after (solved_about input.now) origin.old }
{
    let world = world_at(input, 0);
    let p0 = world.p0;
    let answer = answer_about(world, bearings_at(input, 9));
    write_origin(answer.refusal, p0, origin);
    write_answer(answer, poses, updates, lifted, count)
}

/// The choice among poses about a point, as p3p_choose otherwise. Returns 0, or the refusal number
/// with nothing written.
#[tactic(auto, unfolding(crate::specs::AboutLent::chosen_about))]
#[unsafe(no_mangle)]
pub extern "C" fn p3p_choose_about(
    poses: &[f64; 48],
    count: u32,
    origin: &[f64; 3],
    target: &[f64; 3],
    bearing: &[f64; 3],
    best: &mut u32,
    score: &mut f64,
) -> u32
    ensures value { result
        ≡ number
        (chosen_about poses.now count origin.now target.now
        bearing.now) }
    ensures best_after { best.new
        ≡ best_after
        (chosen_about poses.now count origin.now target.now
        bearing.now)
        best.old }
    ensures score_after { score.new
        ≡ score_after
        (chosen_about poses.now count origin.now target.now
        bearing.now)
        score.old }
{
    let slots = poses_in(poses);
    let from = vector_at(origin, 0);
    let seen = vector_at(target, 0);
    let ray = vector_at(bearing, 0);
    write_choice(choose_about(slots, count, from, seen, ray), best, score)
}
