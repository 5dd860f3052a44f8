//! Rust's f64::clamp.
ghost use Rattle.std.specs.Prelude.{◌≡◌};
ghost use Rattle.ieee754.specs.Clamp as Clamp;

// The larger of x and low.
#[tactic(auto, unfolding(crate::specs::Clamp::raised))]
fn raised(x: f64, low: f64) -> f64
    ensures { result ≡ Clamp.raised x low }
{
    if x < low { low } else { x }
}

/// x, moved to the nearest end of the range from low to high where it is outside. A NaN stays.
#[tactic(auto, unfolding(crate::specs::Clamp::clamp))]
pub fn clamp(x: f64, low: f64, high: f64) -> f64
    ensures { result ≡ Clamp.clamp x low high }
{
    let y = raised(x, low);
    if high < y { high } else { y }
}
