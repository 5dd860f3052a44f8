//! Rust's f64::total_cmp, by IEEE 754's totalOrder, with NaN above every number.
ghost use Rattle.std.specs.Prelude.{◌≡◌};
ghost use Rattle.ieee754.specs.TotalOrder.{total_order, total_cmp};

use crate::copysign::negative;
use std::cmp::Ordering;

/// Whether x is at or below y.
#[tactic(auto, unfolding(crate::specs::TotalOrder::total_order))]
pub fn total_order(x: f64, y: f64) -> bool
    ensures { result ≡ total_order x y }
{
    y.is_nan() || x < y || (x == y && (negative(x) || !negative(y)))
}

#[tactic(auto, unfolding(crate::specs::TotalOrder::total_cmp))]
pub fn total_cmp(x: f64, y: f64) -> Ordering
    ensures { result ≡ total_cmp x y }
{
    if !total_order(x, y) {
        Ordering::Greater
    } else if total_order(y, x) {
        Ordering::Equal
    } else {
        Ordering::Less
    }
}
