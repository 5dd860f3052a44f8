//! The solver's input: three world points and the bearing to each (P3pInput of pose/p3p/common.rs).
ghost use Rattle.std.specs.Prelude.{◌≡◌};
ghost use Rattle.p3p_common.specs.Input.{input_finite};

use frames::bearings::Bearings;
use frames::world::World;

#[derive(Clone, Copy)]
pub struct P3pInput {
    pub world: World,
    pub bearings: Bearings,
}

impl P3pInput {
    /// The test of P3pInput::new: are all eighteen numbers finite?
    #[tactic(auto, unfolding(crate::specs::Input::input_finite))]
    pub fn is_finite(self) -> bool
        ensures { result ≡ input_finite self }
    {
        let Self { world, bearings } = self;
        world.p0.all_finite()
            & world.p1.all_finite()
            & world.p2.all_finite()
            & bearings.f0.all_finite()
            & bearings.f1.all_finite()
            & bearings.f2.all_finite()
    }
}
