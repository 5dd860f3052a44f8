//! Making a plate of three points.
ghost use Rattle.std.specs.Prelude.{◌≡◌};
ghost use Rattle.plates.specs.Make as Make;

use crate::outcome::{Outcome, done};
use crate::plate::zero_plate;
use frames::world::World;

/// Refused with 1 where a coordinate is not finite: the plate is one of plus zeros then.
#[tactic(auto, unfolding(crate::specs::Make::make))]
pub fn make(world: World) -> Outcome
    ensures { result ≡ Make.make world }
{
    if !world.is_finite() {
        return Outcome {
            refusal: 1,
            plate: zero_plate(),
        };
    }
    done(world)
}
