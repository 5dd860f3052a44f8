//! A frame out of the bytes of its record.
ghost use Rattle.std.specs.Prelude.{◌≡◌, ◌+◌, ◌*◌, ◌≤◌, length};
ghost use Rattle.records.specs.Format.{vector_at, frame_at};

use crate::double::double_at;
use frames::bearings::Bearings;
use frames::frame::Frame;
use frames::world::World;
use linalg::vector3::Vector3;

// The vector at place `k` of those that begin at `at`.
#[tactic(auto, unfolding(crate::specs::Format::vector_at))]
fn vector_at(s: &[u8], at: usize, k: usize) -> Vector3
    requires { at + 24 * k + 24 ≤ length s.now }
    ensures { result ≡ vector_at s.now at k }
{
    let start = at + 24 * k;
    Vector3 {
        x: double_at(s, start),
        y: double_at(s, start + 8),
        z: double_at(s, start + 16),
    }
}

// The frame whose eight vectors begin at `at`.
#[tactic(auto, unfolding(crate::specs::Format::frame_at))]
pub(crate) fn frame_at(s: &[u8], at: usize) -> Frame
    requires { at + 192 ≤ length s.now }
    ensures { result ≡ frame_at s.now at }
{
    Frame {
        world: World {
            p0: vector_at(s, at, 0),
            p1: vector_at(s, at, 1),
            p2: vector_at(s, at, 2),
        },
        bearings: Bearings {
            f0: vector_at(s, at, 3),
            f1: vector_at(s, at, 4),
            f2: vector_at(s, at, 5),
        },
        target: vector_at(s, at, 6),
        bearing: vector_at(s, at, 7),
    }
}
