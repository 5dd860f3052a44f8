//! Whether a push gives a record's answer: the count, the pose where one was pushed, and the other
//! slots as they were.
ghost use Rattle.std.specs.Prelude.{◌≡◌};
ghost use Rattle.replay_pieces.specs.PushRecords as PushRecords;
ghost use Rattle.replay_pieces.specs.PushRecords.{mark_vector, vector_is, is_marker, slot_holds};
ghost use Rattle.replay_pieces.specs.PushRecords.{slots_hold, solutions_hold, push_holds};

use frames::bearings::Bearings;
use frames::pose::Pose;
use frames::world::World;
use ieee754::bits::from_bits;
use linalg::matrix3::Matrix3;
use linalg::vector3::Vector3;
use p3p_common::input::P3pInput;
use p3p_common::push_pose::push_pose;
use p3p_common::solutions::Solutions;
use replay_records::Record;
use replay_records::agreement::Compared;
use replay_records::contents::Stored;
use replay_words::{agrees, word};

#[tactic(auto, unfolding(crate::specs::PushRecords::mark_vector))]
fn mark_vector(bits: u64) -> Vector3
    ensures { result ≡ mark_vector bits }
{
    let x = from_bits(bits);
    Vector3 { x, y: x, z: x }
}

// A pose of twelve equal entries, by which a slot is known again.
#[tactic(auto, unfolding(crate::specs::PushRecords::marker))]
fn marker(bits: u64) -> Pose
    ensures { result ≡ PushRecords.marker bits }
{
    let v = mark_vector(bits);
    Pose {
        rotation: Matrix3::from_columns(v, v, v),
        translation: v,
    }
}

// A list of so many poses, slot i marked with i + 1 and not lifted.
#[tactic(auto, unfolding(crate::specs::PushRecords::marked))]
fn marked(count: usize) -> Solutions
    ensures { result ≡ PushRecords.marked count }
{
    Solutions {
        count,
        poses: [marker(1), marker(2), marker(3), marker(4)],
        updates: [1, 2, 3, 4],
        lifted: [false; 4],
    }
}

#[tactic(auto, unfolding(crate::specs::PushRecords::vector_is))]
fn vector_is(v: Vector3, bits: u64) -> bool
    ensures { result ≡ vector_is v bits }
{
    let Vector3 { x, y, z } = v;
    agrees(x, bits) & agrees(y, bits) & agrees(z, bits)
}

#[tactic(auto, unfolding(crate::specs::PushRecords::is_marker))]
fn is_marker(pose: Pose, bits: u64) -> bool
    ensures { result ≡ is_marker pose bits }
{
    let m = pose.rotation;
    vector_is(m.column0(), bits)
        & vector_is(m.column1(), bits)
        & vector_is(m.column2(), bits)
        & vector_is(pose.translation, bits)
}

// Whether slot `mark - 1` holds the pose that the record says was pushed there, lifted; else
// whether it is as it was.
#[tactic(auto, unfolding(crate::specs::PushRecords::slot_holds))]
fn slot_holds(s: &Record, mark: u64, pose: Pose, updates: u32, lifted: bool) -> bool
    ensures { result ≡ slot_holds s.now mark pose updates lifted }
{
    if (word(s, 256) == mark) & (word(s, 248) < mark) {
        lifted & updates.agrees(s, 264) & pose.agrees(s, 272)
    } else {
        !lifted & (u64::from(updates) == mark) & is_marker(pose, mark)
    }
}

fn slots_hold(s: &Record, poses: [Pose; 4], updates: [u32; 4], lifted: [bool; 4]) -> bool
    ensures { result ≡ slots_hold s.now poses updates lifted }
{
    let first = slot_holds(s, 1, poses[0], updates[0], lifted[0]);
    let second = slot_holds(s, 2, poses[1], updates[1], lifted[1]);
    let third = slot_holds(s, 3, poses[2], updates[2], lifted[2]);
    let fourth = slot_holds(s, 4, poses[3], updates[3], lifted[3]);
    first & second & third & fourth
}

#[tactic(auto, unfolding(crate::specs::PushRecords::solutions_hold))]
fn solutions_hold(after: Solutions, s: &Record) -> bool
    ensures { result ≡ solutions_hold after s.now }
{
    let Solutions {
        count,
        poses,
        updates,
        lifted,
    } = after;
    (count as u64).agrees(s, 256) & slots_hold(s, poses, updates, lifted)
}

// World points, bearings, the matrix, the translation, the updates and the count; the count, the
// updates and the pose. What is pushed is lifted.
#[tactic(auto, unfolding(crate::specs::PushRecords::push_holds))]
pub(crate) fn push_holds(s: &Record) -> bool
    ensures { result ≡ push_holds s.now }
{
    let world = World::read(s, 0);
    let bearings = Bearings::read(s, 72);
    let input = P3pInput { world, bearings };
    let before = marked(u32::read(s, 248) as usize);
    let matrix = Matrix3::read(s, 144);
    let translation = Vector3::read(s, 216);
    let updates = u32::read(s, 240);
    solutions_hold(
        push_pose(input, before, matrix, translation, updates, true),
        s,
    )
}
