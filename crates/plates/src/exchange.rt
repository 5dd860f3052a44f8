//! Exchanging two targets of a plate.
ghost use Rattle.std.specs.Prelude.{◌≡◌};
ghost use Rattle.plates.specs.Exchange.{exchanged, exchange};
ghost use Rattle.plates.specs.Target.{number_of_target};

use crate::outcome::{Outcome, done};
use crate::plate::Plate;
use crate::targets::{Target, target_of, with_target};
use frames::world::World;

// The world with each of two targets in the other's place.
#[tactic(auto, unfolding(crate::specs::Exchange::exchanged))]
fn exchanged(world: World, first: Target, second: Target) -> World
    ensures { result ≡ exchanged world (number_of_target first) (number_of_target second) }
{
    let p = target_of(world, first);
    let q = target_of(world, second);
    with_target(with_target(world, first, q), second, p)
}

/// Refused with 11 where there is no such target. A target may be exchanged with itself.
#[tactic(auto, using(crate::proofs::TargetNumbers::named), unfolding(crate::specs::Exchange::exchange))]
pub fn exchange(plate: Plate, first: u32, second: u32) -> Outcome
    ensures { result ≡ exchange plate first second }
{
    match (Target::try_from(first), Target::try_from(second)) {
        (Ok(p), Ok(q)) => done(exchanged(plate.world, p, q)),
        _ => Outcome { refusal: 11, plate },
    }
}
