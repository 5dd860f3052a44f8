//! The solve: world points, bearings, the checking target and its bearing; then the refusal number,
//! the count, the choice's place, and the four slots. The choice is another function's.
ghost use Rattle.std.specs.Prelude.{◌≡◌};
ghost use Rattle.replay_stages.specs.FrameRecords.{frame_holds};

use crate::answers::answer_agrees;
use frames::bearings::Bearings;
use frames::world::World;
use lambdatwist::solve::solve;
use replay_records::Record;
use replay_records::contents::Stored;

#[tactic(auto, unfolding(crate::specs::FrameRecords::frame_holds))]
pub(crate) fn frame_holds(s: &Record) -> bool
    ensures { result ≡ frame_holds s.now }
{
    let world = World::read(s, 0);
    let bearings = Bearings::read(s, 72);
    answer_agrees(solve(world, bearings), s, 192, 216)
}
