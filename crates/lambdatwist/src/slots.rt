//! The slots that a solve fills: for each of four poses its twelve entries, its updates, and
//! whether a pair of roots that it came from was lifted. Arrays of numbers are lent to the stages:
//! what is lent is not copied from stage to stage.
ghost use Rattle.std.specs.Prelude.{◌≡◌, ◌+◌, ◌<◌};
ghost use Rattle.p3p_common.specs.Slots.{push};
ghost use Rattle.lambdatwist.specs.LentSlots.{held};

use frames::pose::Pose;
use p3p_common::solutions::Solutions;

/// A pose that a candidate gave, with the updates of its depths.
#[derive(Clone, Copy)]
pub struct Kept {
    pub pose: Pose,
    pub updates: u32,
}

// A pose stored in the next slot with its candidate's mark.
#[tactic(auto, using(crate::proofs::Filling::filling))]
pub(crate) fn store(
    kept: Kept,
    mark: bool,
    count: usize,
    slots: &mut [[f64; 12]; 4],
    updates: &mut [u32; 4],
    lifted: &mut [bool; 4],
)
    requires { count < 4 }
    ensures { held (count + 1) slots.new updates.new lifted.new
        ≡ push (held count slots.old updates.old lifted.old) kept.pose kept.updates mark }
{
    slots[count] = <[f64; 12]>::from(kept.pose);
    updates[count] = kept.updates;
    lifted[count] = mark;
}

/// The solutions that `count` filled slots hold.
#[tactic(auto, unfolding(crate::specs::LentSlots::held))]
pub fn held(count: usize, slots: [[f64; 12]; 4], updates: [u32; 4], lifted: [bool; 4]) -> Solutions
    ensures { result ≡ held count slots updates lifted }
{
    Solutions {
        count,
        poses: slots.map(Pose::from),
        updates,
        lifted,
    }
}
