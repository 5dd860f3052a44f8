//! Replacing one target of a plate.
ghost use Rattle.std.specs.Prelude.{◌≡◌};
ghost use Rattle.plates.specs.Replace as Replace;

use crate::outcome::{Outcome, done};
use crate::plate::Plate;
use crate::targets::{Target, with_target};
use linalg::vector3::Vector3;

/// Refused with 1 where the new point is not finite, then with 11 where there is no such target.
/// The other points of the plate are not looked at.
#[tactic(auto, using(crate::proofs::TargetNumbers::named), unfolding(crate::specs::Replace::replace))]
pub fn replace(plate: Plate, number: u32, point: Vector3) -> Outcome
    ensures { result ≡ Replace.replace plate number point }
{
    if !point.all_finite() {
        return Outcome { refusal: 1, plate };
    }
    let Ok(which) = Target::try_from(number) else {
        return Outcome { refusal: 11, plate };
    };
    done(with_target(plate.world, which, point))
}
