//! What is done with a plate: its making, the operations on it, the solve with it, and the preview
//! of a moved target. A record has what the function takes, then what it gives.
ghost use Rattle.std.specs.Prelude.{◌≡◌};
ghost use Rattle.replay_plates.specs.HandlingRecords.{make_holds, replace_holds, exchange_holds};
ghost use Rattle.replay_plates.specs.HandlingRecords.{scale_holds, solve_holds};
ghost use Rattle.replay_plates.specs.HandlingRecords.{shown_agrees, preview_holds};
ghost use Rattle.replay_plates.specs.HandlingRecords.{handling_holds, handling_words};

use crate::exponents::exponent;
use crate::plate::{outcome_agrees, plate_at};
use frames::bearings::Bearings;
use frames::world::World;
use linalg::vector3::Vector3;
use plates::exchange::exchange;
use plates::make::make;
use plates::replace::replace;
use plates::solve_plate::solve_plate;
use plates::times_power::times_power;
use preview::preview::{Shown, preview};
use replay_records::Record;
use replay_records::agreement::Compared;
use replay_records::contents::Stored;
use replay_records::replayed::Replayed;
use replay_stages::answers::answer_agrees;
use replay_words::word;

#[derive(Clone, Copy, Debug, PartialEq, Eq)]
pub enum Handling {
    Make,
    Replace,
    Exchange,
    Scale,
    Solve,
    Preview,
}

#[tactic(auto, unfolding(crate::specs::HandlingRecords::make_holds))]
fn make_holds(s: &Record) -> bool
    ensures { result ≡ make_holds s.now }
{
    outcome_agrees(make(World::read(s, 0)), s, 72)
}

#[tactic(auto, unfolding(crate::specs::HandlingRecords::replace_holds))]
fn replace_holds(s: &Record) -> bool
    ensures { result ≡ replace_holds s.now }
{
    let plate = plate_at(s);
    let number = u32::read(s, 176);
    let point = Vector3::read(s, 184);
    outcome_agrees(replace(plate, number, point), s, 208)
}

#[tactic(auto, unfolding(crate::specs::HandlingRecords::exchange_holds))]
fn exchange_holds(s: &Record) -> bool
    ensures { result ≡ exchange_holds s.now }
{
    let plate = plate_at(s);
    let first = u32::read(s, 176);
    let second = u32::read(s, 184);
    outcome_agrees(exchange(plate, first, second), s, 192)
}

// No record has an exponent beyond 32 bits.
#[tactic(auto, unfolding(crate::specs::HandlingRecords::scale_holds))]
fn scale_holds(s: &Record) -> bool
    ensures { result ≡ scale_holds s.now }
{
    match exponent(word(s, 176)) {
        Some(k) => outcome_agrees(times_power(plate_at(s), k), s, 184),
        None => false,
    }
}

#[tactic(auto, unfolding(crate::specs::HandlingRecords::solve_holds))]
fn solve_holds(s: &Record) -> bool
    ensures { result ≡ solve_holds s.now }
{
    let plate = plate_at(s);
    let bearings = Bearings::read(s, 176);
    answer_agrees(solve_plate(plate, bearings), s, 248, 264)
}

// The edges stand between the count and the slots.
#[tactic(auto, unfolding(crate::specs::HandlingRecords::shown_agrees))]
fn shown_agrees(shown: Shown, s: &Record) -> bool
    ensures { result ≡ shown_agrees shown s.now }
{
    let answer = answer_agrees(shown.answer, s, 280, 320);
    let edges = shown.edges.agrees(s, 296);
    answer & edges
}

#[tactic(auto, unfolding(crate::specs::HandlingRecords::preview_holds))]
fn preview_holds(s: &Record) -> bool
    ensures { result ≡ preview_holds s.now }
{
    let plate = plate_at(s);
    let number = u32::read(s, 176);
    let point = Vector3::read(s, 184);
    let bearings = Bearings::read(s, 208);
    shown_agrees(preview(plate, number, point, bearings), s)
}

impl Replayed for Handling {
    ghost words = { handling_words };

    ghost answered = { handling_holds };

    fn length(self) -> usize {
        match self {
            Handling::Make => 256,
            Handling::Replace => 392,
            Handling::Exchange => 376,
            Handling::Scale => 368,
            Handling::Solve => 712,
            Handling::Preview => 768,
        }
    }

    #[tactic(auto, unfolding(crate::specs::HandlingRecords::handling_holds))]
    fn holds(self, s: &Record) -> bool {
        match self {
            Handling::Make => make_holds(s),
            Handling::Replace => replace_holds(s),
            Handling::Exchange => exchange_holds(s),
            Handling::Scale => scale_holds(s),
            Handling::Solve => solve_holds(s),
            Handling::Preview => preview_holds(s),
        }
    }
}
