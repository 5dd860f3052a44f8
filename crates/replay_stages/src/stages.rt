//! The solve and three of its stages: what the function takes, then what it gives.
ghost use Rattle.std.specs.Prelude.{◌≡◌};
ghost use Rattle.replay_stages.specs.StageRecords.{condition_holds, stage_holds, stage_words};

use crate::eigenvectors::{pairs_hold, row_crosses_hold, system_holds};
use crate::frame::frame_holds;
use frames::bearings::Bearings;
use frames::world::World;
use orderings::condition::leading_cubic_condition;
use replay_records::Record;
use replay_records::agreement::Compared;
use replay_records::contents::Stored;
use replay_records::replayed::Replayed;

#[derive(Clone, Copy, Debug, PartialEq, Eq)]
pub enum Stage {
    Frame,
    Eig,
    RowCrosses,
    Condition,
}

#[tactic(auto, unfolding(crate::specs::StageRecords::condition_holds))]
fn condition_holds(s: &Record) -> bool
    ensures { result ≡ condition_holds s.now }
{
    let world = World::read(s, 0);
    let bearings = Bearings::read(s, 72);
    leading_cubic_condition(world, bearings).agrees(s, 144)
}

impl Replayed for Stage {
    ghost words = { stage_words };

    ghost answered = { stage_holds };

    fn length(self) -> usize {
        match self {
            Stage::Frame => 664,
            Stage::Eig => 184,
            Stage::RowCrosses => 112,
            Stage::Condition => 152,
        }
    }

    #[tactic(auto, unfolding(crate::specs::StageRecords::stage_holds))]
    fn holds(self, s: &Record) -> bool {
        match self {
            Stage::Frame => frame_holds(s),
            Stage::Eig => system_holds(s) & pairs_hold(s),
            Stage::RowCrosses => row_crosses_hold(s),
            Stage::Condition => condition_holds(s),
        }
    }
}
