//! The choice among poses about a point: the count, four poses, the point, the target and the
//! bearing, then the answer as in the choice's records.
ghost use Rattle.std.specs.Prelude.{◌≡◌};
ghost use Rattle.replay_about.specs.ChooseAboutRecords.{choose_about_holds, choose_about_words};

use about::choose_about::choose_about;
use frames::pose::Pose;
use linalg::vector3::Vector3;
use replay_pieces::chosen::choice_agrees;
use replay_records::Record;
use replay_records::contents::Stored;
use replay_records::replayed::Replayed;

/// The choice about a point, of which there is one kind of record.
#[derive(Clone, Copy, Debug, PartialEq, Eq)]
pub struct ChosenAbout;

impl Replayed for ChosenAbout {
    ghost words = { λ _. choose_about_words };

    ghost answered = { λ _ s. choose_about_holds s };

    fn length(self) -> usize {
        488
    }

    #[tactic(auto, unfolding(crate::specs::ChooseAboutRecords::choose_about_holds))]
    fn holds(self, s: &Record) -> bool {
        let count = u32::read(s, 0);
        let poses = <[Pose; 4]>::read(s, 8);
        let origin = Vector3::read(s, 392);
        let target = Vector3::read(s, 416);
        let bearing = Vector3::read(s, 440);
        choice_agrees(choose_about(poses, count, origin, target, bearing), s, 464)
    }
}
