//! Whether a value is the one that stands at a place of a record, bit for bit.
ghost use Rattle.std.specs.Prelude.{◌≡◌, ℕ, ◌+◌, ◌≤◌, Bool, List};
ghost use Rattle.replay_records.specs.Agreement.{number_agrees, flag, double_agrees, vector_agrees};
ghost use Rattle.replay_records.specs.Agreement.{matrix_agrees, pose_agrees, world_agrees};
ghost use Rattle.replay_records.specs.Agreement.{squares_agree, option_agrees};
ghost use Rattle.replay_records.specs.Contents.{anywhere};

use crate::Record;
use frames::pose::Pose;
use frames::squared_edges::SquaredEdges;
use frames::world::World;
use linalg::matrix3::Matrix3;
use linalg::vector3::Vector3;
use replay_words::{agrees, word};

/// A value that is compared with what stands in a record.
pub trait Compared: Copy {
    // the last place that it is compared at
    ghost last: { ℕ };

    ghost compared: { Self → List ℕ → ℕ → Bool };

    /// Whether it stands at the place, bit for bit.
    fn agrees(self, s: &Record, at: usize) -> bool
        requires { at ≤ last }
        ensures { result ≡ compared self s.now at };
}

impl Compared for u64 {
    ghost last = { anywhere };

    ghost compared = { number_agrees };

    #[tactic(auto, unfolding(crate::specs::Agreement::number_agrees))]
    fn agrees(self, s: &Record, at: usize) -> bool {
        self == word(s, at)
    }
}

impl Compared for u32 {
    ghost last = { anywhere };

    ghost compared = { number_agrees };

    fn agrees(self, s: &Record, at: usize) -> bool {
        u64::from(self).agrees(s, at)
    }
}

// A bool stands as 0 or 1.
impl Compared for bool {
    ghost last = { anywhere };

    ghost compared = { λ b. number_agrees (flag b) };

    fn agrees(self, s: &Record, at: usize) -> bool {
        u64::from(self).agrees(s, at)
    }
}

impl Compared for f64 {
    ghost last = { anywhere };

    ghost compared = { double_agrees };

    #[tactic(auto, unfolding(crate::specs::Agreement::double_agrees))]
    fn agrees(self, s: &Record, at: usize) -> bool {
        agrees(self, word(s, at))
    }
}

impl Compared for Vector3 {
    ghost last = { 744 };

    ghost compared = { vector_agrees };

    #[tactic(auto, unfolding(crate::specs::Agreement::vector_agrees))]
    fn agrees(self, s: &Record, at: usize) -> bool {
        let x = self.x.agrees(s, at);
        let y = self.y.agrees(s, at + 8);
        let z = self.z.agrees(s, at + 16);
        x & y & z
    }
}

impl Compared for Matrix3 {
    ghost last = { 696 };

    ghost compared = { matrix_agrees };

    #[tactic(auto, unfolding(crate::specs::Agreement::matrix_agrees))]
    fn agrees(self, s: &Record, at: usize) -> bool {
        let c0 = self.column0().agrees(s, at);
        let c1 = self.column1().agrees(s, at + 24);
        let c2 = self.column2().agrees(s, at + 48);
        c0 & c1 & c2
    }
}

impl Compared for Pose {
    ghost last = { 672 };

    ghost compared = { pose_agrees };

    #[tactic(auto, unfolding(crate::specs::Agreement::pose_agrees))]
    fn agrees(self, s: &Record, at: usize) -> bool {
        let rotation = self.rotation.agrees(s, at);
        let translation = self.translation.agrees(s, at + 72);
        rotation & translation
    }
}

impl Compared for World {
    ghost last = { 696 };

    ghost compared = { world_agrees };

    #[tactic(auto, unfolding(crate::specs::Agreement::world_agrees))]
    fn agrees(self, s: &Record, at: usize) -> bool {
        let p0 = self.p0.agrees(s, at);
        let p1 = self.p1.agrees(s, at + 24);
        let p2 = self.p2.agrees(s, at + 48);
        p0 & p1 & p2
    }
}

impl Compared for SquaredEdges {
    ghost last = { 744 };

    ghost compared = { squares_agree };

    #[tactic(auto, unfolding(crate::specs::Agreement::squares_agree))]
    fn agrees(self, s: &Record, at: usize) -> bool {
        let a01 = self.a01.agrees(s, at);
        let a02 = self.a02.agrees(s, at + 8);
        let a12 = self.a12.agrees(s, at + 16);
        a01 & a02 & a12
    }
}

/// A value that may be missing: a word that says whether it is there, before it.
pub fn option_agrees<T: Compared>(value: Option<T>, s: &Record, at: usize) -> bool
    requires fits { at ≤ 760 }
    requires within { at + 8 ≤ T.last }
    ensures { result ≡ option_agrees T.compared value s.now at }
{
    match value {
        Some(value) => 1u64.agrees(s, at) & value.agrees(s, at + 8),
        None => 0u64.agrees(s, at),
    }
}
