//! Rust's f64::sqrt, IEEE 754's squareRoot: the machine's operation, of which RootIeee in proofs/
//! shows that it is the root rounded once.
ghost use Rattle.std.specs.Prelude.{◌≡◌};
ghost use Rattle.ieee754.specs.Root as Root;

/// The square root of x. Minus zero is its own, and below zero there is none.
pub fn sqrt(x: f64) -> f64
    ensures { result ≡ Root.sqrt x }
{
    x.sqrt()
}
