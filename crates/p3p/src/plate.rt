//! A plate, the operations on it and the solve with it, over lent memory: nine
//! doubles of points, the squared edges 01, 02 and 12, nine of the inverse by columns, and beside
//! these 21 whether there is an inverse. Targets have the numbers 0, 1 and 2. A refusal writes
//! nothing, of a making too.
ghost use Rattle.std.specs.Prelude.{◌≡◌};
ghost use Rattle.lent_answers.specs.Solved.{poses_after, updates_after, lifted_after, count_after};
ghost use Rattle.lent_answers.specs.Plated.{plate_after, inverse_after};
ghost use Rattle.p3p.specs.PlateLent.{made, replaced, exchanged, scaled, solved_plate};

use frames::lent::{bearings_at, vector_at, world_at};
use lent_answers::plate::{plate_in, write_plate};
use lent_answers::solved::write_answer;
use plates::exchange::exchange;
use plates::make::make;
use plates::replace::replace;
use plates::solve_plate::solve_plate;
use plates::times_power::times_power;

/// The plate of three points. Returns 0 or 1.
#[tactic(auto, unfolding(crate::specs::PlateLent::made))]
#[unsafe(no_mangle)]
pub extern "C" fn p3p_plate_make(
    points: &[f64; 9],
    plate: &mut [f64; 21],
    has_inverse: &mut u32,
) -> u32
    ensures value { result ≡ (made points.now).refusal }
    ensures plate_after { plate.new ≡ plate_after (made points.now) plate.old }
    ensures has_inverse_after { has_inverse.new
        ≡ inverse_after (made points.now) has_inverse.old }
{
    let world = world_at(points, 0);
    write_plate(make(world), plate, has_inverse)
}

/// The plate with one target moved to a point. Returns 0, 1 or 11.
#[tactic(auto, unfolding(crate::specs::PlateLent::replaced))]
#[unsafe(no_mangle)]
pub extern "C" fn p3p_plate_replace(
    plate: &mut [f64; 21],
    has_inverse: &mut u32,
    target: u32,
    point: &[f64; 3],
) -> u32
    ensures value { result
        ≡ (replaced plate.old has_inverse.old target
        point.now
        ).refusal }
    ensures plate_after { plate.new
        ≡ plate_after
        (replaced plate.old has_inverse.old target
        point.now)
        plate.old }
    ensures has_inverse_after { has_inverse.new
        ≡ inverse_after
        (replaced plate.old has_inverse.old target
        point.now)
        has_inverse.old }
{
    let old = plate_in(plate, *has_inverse);
    let moved = vector_at(point, 0);
    write_plate(replace(old, target, moved), plate, has_inverse)
}

/// The plate with each of two targets in the other's place. Returns 0 or 11.
#[tactic(auto, unfolding(crate::specs::PlateLent::exchanged))]
#[unsafe(no_mangle)]
pub extern "C" fn p3p_plate_exchange(
    plate: &mut [f64; 21],
    has_inverse: &mut u32,
    first: u32,
    second: u32,
) -> u32
    ensures value { result
        ≡ (exchanged plate.old has_inverse.old first second
        ).refusal }
    ensures plate_after { plate.new
        ≡ plate_after
        (exchanged plate.old has_inverse.old first second)
        plate.old }
    ensures has_inverse_after { has_inverse.new
        ≡ inverse_after
        (exchanged plate.old has_inverse.old first second)
        has_inverse.old }
{
    let old = plate_in(plate, *has_inverse);
    write_plate(exchange(old, first, second), plate, has_inverse)
}

/// The plate with all coordinates multiplied by 2^k. Returns 0, 12 or 13.
#[tactic(auto, unfolding(crate::specs::PlateLent::scaled))]
#[unsafe(no_mangle)]
pub extern "C" fn p3p_plate_scale(plate: &mut [f64; 21], has_inverse: &mut u32, k: i32) -> u32
    ensures value { result
        ≡ (scaled plate.old has_inverse.old k
        ).refusal }
    ensures plate_after { plate.new
        ≡ plate_after
        (scaled plate.old has_inverse.old k)
        plate.old }
    ensures has_inverse_after { has_inverse.new
        ≡ inverse_after
        (scaled plate.old has_inverse.old k)
        has_inverse.old }
{
    let old = plate_in(plate, *has_inverse);
    write_plate(times_power(old, k), plate, has_inverse)
}

/// The poses of a plate and the bearings to its targets. Returns 0, or the refusal number.
#[tactic(auto, unfolding(crate::specs::PlateLent::solved_plate))]
#[unsafe(no_mangle)]
pub extern "C" fn p3p_plate_solve(
    plate: &[f64; 21],
    has_inverse: u32,
    bearings: &[f64; 9],
    poses: &mut [f64; 48],
    updates: &mut [u32; 4],
    lifted: &mut [u32; 4],
    count: &mut u32,
) -> u32
    ensures value { result
        ≡ (solved_plate plate.now has_inverse bearings.now).refusal }
    ensures poses_after { poses.new
        ≡ poses_after (solved_plate plate.now has_inverse bearings.now)
        poses.old }
    ensures updates_after { updates.new
        ≡ updates_after (solved_plate plate.now has_inverse bearings.now)
        updates.old }
    ensures lifted_after { lifted.new
        ≡ lifted_after (solved_plate plate.now has_inverse bearings.now)
        lifted.old }
    ensures count_after { count.new
        ≡ count_after (solved_plate plate.now has_inverse bearings.now)
        count.old }
{
    let stored = plate_in(plate, has_inverse);
    let rays = bearings_at(bearings, 0);
    write_answer(solve_plate(stored, rays), poses, updates, lifted, count)
}
