//! What a moved target would do, over lent memory. The plate is only read. The
//! squared edges are always written: plus zeros where the replacement is refused, else those that
//! would be stored.
ghost use Rattle.std.specs.Prelude.{◌≡◌};
ghost use Rattle.lent_answers.specs.Solved.{poses_after, updates_after, lifted_after, count_after};
ghost use Rattle.p3p.specs.PreviewLent.{previewed, edge_entries};

use crate::plate::{p3p_plate_replace, p3p_plate_solve};
use lent_answers::plate::{plate_entries, plate_in};

/// The poses of a plate with one target moved to a point, and the squared edges that would be
/// stored. Returns 0, or the refusal number: the replacement's, then the solve's.
#[unsafe(no_mangle)]
pub extern "C" fn p3p_plate_preview(
    plate: &[f64; 21],
    has_inverse: u32,
    target: u32,
    point: &[f64; 3],
    bearings: &[f64; 9],
    poses: &mut [f64; 48],
    updates: &mut [u32; 4],
    lifted: &mut [u32; 4],
    count: &mut u32,
    edges: &mut [f64; 3],
) -> u32
    ensures value { result
        ≡ (previewed plate.now has_inverse target point.now
        bearings.now
        ).answer.refusal }
    ensures poses_after { poses.new
        ≡ poses_after
        (previewed plate.now has_inverse target point.now
        bearings.now
        ).answer
        poses.old }
    ensures updates_after { updates.new
        ≡ updates_after
        (previewed plate.now has_inverse target point.now
        bearings.now
        ).answer
        updates.old }
    ensures lifted_after { lifted.new
        ≡ lifted_after
        (previewed plate.now has_inverse target point.now
        bearings.now
        ).answer
        lifted.old }
    ensures count_after { count.new
        ≡ count_after
        (previewed plate.now has_inverse target point.now
        bearings.now
        ).answer
        count.old }
    ensures edges_after { edges.new
        ≡ edge_entries
        (previewed plate.now has_inverse target point.now
        bearings.now
        ).edges }
{
    // entry by entry: a copy of the whole array would link memcpy
    let mut copy = plate_entries(plate_in(plate, has_inverse));
    let mut inverse = has_inverse;
    let refusal = p3p_plate_replace(&mut copy, &mut inverse, target, point);
    if refusal != 0 {
        *edges = [0.0; 3];
        return refusal;
    }
    *edges = [copy[9], copy[10], copy[11]];
    p3p_plate_solve(&copy, inverse, bearings, poses, updates, lifted, count)
}
