//! The zero to four poses of a solve, with the updates that each one's depths took and its mark:
//! four slots and a count (SolverP3pSolutions of pose/p3p/common.rs).
ghost use Rattle.std.specs.Prelude.{◌≡◌};
ghost use Rattle.p3p_common.specs.Slots.{empty, push};

use frames::pose::Pose;

#[derive(Clone, Copy)]
pub struct Solutions {
    pub count: usize,
    pub poses: [Pose; 4],
    pub updates: [u32; 4],
    /// Whether a pair of roots that the pose came from was lifted.
    pub lifted: [bool; 4],
}

impl Solutions {
    #[tactic(auto, unfolding(crate::specs::Slots::empty))]
    pub fn empty() -> Self
        ensures { result ≡ empty }
    {
        Self {
            count: 0,
            poses: [Pose::zeros(); 4],
            updates: [0u32; 4],
            lifted: [false; 4],
        }
    }

    /// ArrayVec::try_push: a fifth pose is dropped.
    #[tactic(auto, unfolding(crate::specs::Slots::push))]
    pub fn push(mut self, pose: Pose, updates: u32, lifted: bool) -> Self
        ensures { result ≡ push self pose updates lifted }
    {
        let at = self.count;
        if at < 4 {
            self.poses[at] = pose;
            self.updates[at] = updates;
            self.lifted[at] = lifted;
            self.count = at + 1;
        }
        self
    }
}
