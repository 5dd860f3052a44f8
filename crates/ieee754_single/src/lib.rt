// Two single operations and the third of a word, which crate p3p does not export, for bench/ieee754
// to link and to compare with C's.
#![tactic(auto)]

ghost use Rattle.std.specs.Prelude.{◌≡◌, ◌/◌};
ghost use Rattle.ieee754.specs.Fma as Fma;
ghost use Rattle.ieee754.specs.Magnitude as Magnitude;

#[unsafe(no_mangle)]
pub extern "C" fn ieee754_abs(x: f64) -> f64
    ensures { result ≡ Magnitude.abs x }
{
    ieee754::abs::abs(x)
}

#[unsafe(no_mangle)]
pub extern "C" fn ieee754_fma_square(x: f64, z: f64) -> f64
    ensures { result ≡ Fma.fma x x z }
{
    ieee754::fma_square::fma_square(x, z)
}

#[unsafe(no_mangle)]
pub extern "C" fn ieee754_third(n: u64) -> u64
    ensures { result ≡ n / 3 }
{
    ieee754_parts::third::third(n)
}
