//! The depth candidates of solve_ordered (lambdatwist.rs): four slots and a count. Each has a mark:
//! whether a pair of roots that it came from was lifted.
ghost use Rattle.std.specs.Prelude.{◌≡◌};
ghost use Rattle.depths.specs.DepthSlots.{no_candidates};
ghost use Rattle.depths.specs.Pushed.{pushed};

use linalg::vector3::Vector3;

/// Three depths, and whether the pair of eigenvalues or of depth ratios that they came from was
/// lifted.
#[derive(Clone, Copy)]
pub struct Candidate {
    pub depths: Vector3,
    pub lifted: bool,
}

/// `lifted` says it of the eigenvalues, which all the candidates came from.
#[derive(Clone, Copy)]
pub struct Candidates {
    pub lifted: bool,
    pub count: usize,
    pub slots: [Candidate; 4],
}

impl Candidates {
    #[tactic(auto, unfolding(crate::specs::DepthSlots::no_candidates))]
    pub fn none(lifted: bool) -> Self
        ensures { result ≡ no_candidates lifted }
    {
        let empty = Candidate {
            depths: Vector3::zeros(),
            lifted: false,
        };
        Self {
            lifted,
            count: 0,
            slots: [empty; 4],
        }
    }

    /// The depths of a root appended, where it has some and there is room; `lifted` says it of the
    /// pair of depth ratios.
    #[tactic(auto, unfolding(crate::specs::Pushed::pushed, crate::specs::DepthSlots::candidate))]
    pub fn push(&mut self, depths: Option<Vector3>, lifted: bool)
        ensures { self.new ≡ pushed self.old depths lifted }
    {
        if let Some(depths) = depths {
            if self.count < 4 {
                self.slots[self.count] = Candidate {
                    depths,
                    lifted: self.lifted || lifted,
                };
                self.count += 1;
            }
        }
    }
}
