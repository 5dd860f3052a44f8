//! The solve about the first target: world points and bearings; then the refusal number, the count,
//! the origin, and the four slots.
ghost use Rattle.std.specs.Prelude.{◌≡◌};
ghost use Rattle.replay_about.specs.SolveAboutRecords.{answer_about_agrees, solve_about_holds};
ghost use Rattle.replay_about.specs.SolveAboutRecords.{solve_about_words};

use about::solve_about::{AnswerAbout, solve_about};
use frames::bearings::Bearings;
use frames::world::World;
use replay_records::Record;
use replay_records::agreement::Compared;
use replay_records::contents::Stored;
use replay_records::replayed::Replayed;
use replay_stages::answers::answer_agrees;

#[tactic(auto, unfolding(crate::specs::SolveAboutRecords::answer_about_agrees))]
fn answer_about_agrees(about: AnswerAbout, s: &Record) -> bool
    ensures { result ≡ answer_about_agrees about s.now }
{
    let answer = answer_agrees(about.answer, s, 144, 184);
    let origin = about.origin.agrees(s, 160);
    answer & origin
}

/// The solve about the first target, of which there is one kind of record.
#[derive(Clone, Copy, Debug, PartialEq, Eq)]
pub struct SolvedAbout;

impl Replayed for SolvedAbout {
    ghost words = { λ _. solve_about_words };

    ghost answered = { λ _ s. solve_about_holds s };

    fn length(self) -> usize {
        632
    }

    #[tactic(auto, unfolding(crate::specs::SolveAboutRecords::solve_about_holds))]
    fn holds(self, s: &Record) -> bool {
        let world = World::read(s, 0);
        let bearings = Bearings::read(s, 72);
        answer_about_agrees(solve_about(world, bearings), s)
    }
}
