//! What an operation on a plate gives.
ghost use Rattle.std.specs.Prelude.{◌≡◌};
ghost use Rattle.plates.specs.Outcome as Outcomes;

use crate::plate::{Plate, plate_of};
use frames::world::World;

/// `refusal` is 0 where the operation was done; otherwise its number, and the plate is the old one.
#[derive(Clone, Copy)]
pub struct Outcome {
    pub refusal: u32,
    pub plate: Plate,
}

// Done: all that is stored is worked out anew from the points.
#[tactic(auto, unfolding(crate::specs::Outcome::done))]
pub(crate) fn done(world: World) -> Outcome
    ensures { result ≡ Outcomes.done world }
{
    Outcome {
        refusal: 0,
        plate: plate_of(world),
    }
}
