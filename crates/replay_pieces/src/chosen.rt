//! The choice: the count, four slots of twelve words (the rotation, the translation), the target
//! and the bearing, then the refusal number, 0 where nothing is refused, the place from 1 and the
//! score.
ghost use Rattle.std.specs.Prelude.{◌≡◌, ◌≤◌};
ghost use Rattle.replay_pieces.specs.ChoiceRecords.{choice_agrees, choice_holds, choice_words};

use choice::choose::{Best, Choice, choose, number};
use frames::pose::Pose;
use linalg::vector3::Vector3;
use replay_records::Record;
use replay_records::agreement::Compared;
use replay_records::contents::Stored;
use replay_records::replayed::Replayed;

/// Whether the refusal number, the place and the score, which begin at `at`, are the choice's: the
/// records of the choice about a point have them too.
pub fn choice_agrees(choice: Choice, s: &Record, at: usize) -> bool
    requires { at ≤ 744 }
    ensures { result ≡ choice_agrees choice s.now at }
{
    let refusal = number(choice).agrees(s, at);
    match choice {
        Ok(Best { place, score }) => refusal & place.agrees(s, at + 8) & score.agrees(s, at + 16),
        Err(_) => refusal,
    }
}

/// The choice, of which there is one kind of record.
#[derive(Clone, Copy, Debug, PartialEq, Eq)]
pub struct Chosen;

impl Replayed for Chosen {
    ghost words = { λ _. choice_words };

    ghost answered = { λ _ s. choice_holds s };

    fn length(self) -> usize {
        464
    }

    #[tactic(auto, unfolding(crate::specs::ChoiceRecords::choice_holds))]
    fn holds(self, s: &Record) -> bool {
        let count = u32::read(s, 0);
        let poses = <[Pose; 4]>::read(s, 8);
        let target = Vector3::read(s, 392);
        let bearing = Vector3::read(s, 416);
        choice_agrees(choose(poses, count, target, bearing), s, 440)
    }
}
