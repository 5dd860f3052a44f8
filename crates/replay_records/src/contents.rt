//! What stands in a record by its place in bytes.
ghost use Rattle.std.specs.Prelude.{◌≡◌, ℕ, ◌≤◌, List};
ghost use Rattle.replay_records.specs.Contents.{anywhere, narrow, double_at, vector_at, matrix_at};
ghost use Rattle.replay_records.specs.Contents.{world_at, bearings_at, pose_at, poses_at};
ghost use Rattle.replay_records.specs.Contents.{squares_at, cosines_at};
ghost use Rattle.replay_words.specs.Words.{word_at};

use crate::Record;
use frames::bearings::Bearings;
use frames::cosines::Cosines;
use frames::pose::Pose;
use frames::squared_edges::SquaredEdges;
use frames::world::World;
use ieee754::bits::from_bits;
use linalg::matrix3::Matrix3;
use linalg::vector3::Vector3;
use replay_words::word;

/// A value that stands in records.
pub trait Stored: Copy {
    // the last place that it is read at
    ghost last: { ℕ };

    ghost stored: { List ℕ → ℕ → Self };

    /// The value that begins at the place.
    fn read(s: &Record, at: usize) -> Self
        requires { at ≤ last }
        ensures { result ≡ stored s.now at };
}

// A count, the largest for a word beyond it.
impl Stored for u32 {
    ghost last = { anywhere };

    ghost stored = { λ s at. narrow (word_at s at) };

    fn read(s: &Record, at: usize) -> u32 {
        u32::try_from(word(s, at)).unwrap_or(u32::MAX)
    }
}

impl Stored for f64 {
    ghost last = { anywhere };

    ghost stored = { double_at };

    #[tactic(auto, unfolding(crate::specs::Contents::double_at))]
    fn read(s: &Record, at: usize) -> f64 {
        from_bits(word(s, at))
    }
}

impl Stored for Vector3 {
    ghost last = { 744 };

    ghost stored = { vector_at };

    #[tactic(auto, unfolding(crate::specs::Contents::vector_at))]
    fn read(s: &Record, at: usize) -> Vector3 {
        Vector3 {
            x: f64::read(s, at),
            y: f64::read(s, at + 8),
            z: f64::read(s, at + 16),
        }
    }
}

impl Stored for Matrix3 {
    ghost last = { 696 };

    ghost stored = { matrix_at };

    #[tactic(auto, unfolding(crate::specs::Contents::matrix_at))]
    fn read(s: &Record, at: usize) -> Matrix3 {
        let c0 = Vector3::read(s, at);
        let c1 = Vector3::read(s, at + 24);
        let c2 = Vector3::read(s, at + 48);
        Matrix3::from_columns(c0, c1, c2)
    }
}

impl Stored for World {
    ghost last = { 696 };

    ghost stored = { world_at };

    #[tactic(auto, unfolding(crate::specs::Contents::world_at))]
    fn read(s: &Record, at: usize) -> World {
        World {
            p0: Vector3::read(s, at),
            p1: Vector3::read(s, at + 24),
            p2: Vector3::read(s, at + 48),
        }
    }
}

impl Stored for Bearings {
    ghost last = { 696 };

    ghost stored = { bearings_at };

    #[tactic(auto, unfolding(crate::specs::Contents::bearings_at))]
    fn read(s: &Record, at: usize) -> Bearings {
        Bearings {
            f0: Vector3::read(s, at),
            f1: Vector3::read(s, at + 24),
            f2: Vector3::read(s, at + 48),
        }
    }
}

impl Stored for Pose {
    ghost last = { 672 };

    ghost stored = { pose_at };

    #[tactic(auto, unfolding(crate::specs::Contents::pose_at))]
    fn read(s: &Record, at: usize) -> Pose {
        Pose {
            rotation: Matrix3::read(s, at),
            translation: Vector3::read(s, at + 72),
        }
    }
}

// Four poses, of twelve words each.
impl Stored for [Pose; 4] {
    ghost last = { 384 };

    ghost stored = { poses_at };

    #[tactic(auto, unfolding(crate::specs::Contents::poses_at))]
    fn read(s: &Record, at: usize) -> [Pose; 4] {
        let first = Pose::read(s, at);
        let second = Pose::read(s, at + 96);
        let third = Pose::read(s, at + 192);
        let fourth = Pose::read(s, at + 288);
        [first, second, third, fourth]
    }
}

impl Stored for SquaredEdges {
    ghost last = { 744 };

    ghost stored = { squares_at };

    #[tactic(auto, unfolding(crate::specs::Contents::squares_at))]
    fn read(s: &Record, at: usize) -> SquaredEdges {
        SquaredEdges {
            a01: f64::read(s, at),
            a02: f64::read(s, at + 8),
            a12: f64::read(s, at + 16),
        }
    }
}

impl Stored for Cosines {
    ghost last = { 744 };

    ghost stored = { cosines_at };

    #[tactic(auto, unfolding(crate::specs::Contents::cosines_at))]
    fn read(s: &Record, at: usize) -> Cosines {
        Cosines {
            m01: f64::read(s, at),
            m02: f64::read(s, at + 8),
            m12: f64::read(s, at + 16),
        }
    }
}
