//! The single operations.
ghost use Rattle.std.specs.Prelude.{◌≡◌};
ghost use Rattle.ieee754.specs.CopySign as CopySign;
ghost use Rattle.ieee754.specs.Fma as Fma;
ghost use Rattle.ieee754.specs.Maximum as Maximum;
ghost use Rattle.ieee754.specs.Root as Root;
ghost use Rattle.ieee754.specs.TotalOrder.{total_cmp};
ghost use Rattle.p3p.specs.Answer.{ordering};

use std::cmp::Ordering;

#[unsafe(no_mangle)]
pub extern "C" fn p3p_sqrt(x: f64) -> f64
    ensures { result ≡ Root.sqrt x }
{
    ieee754::sqrt::sqrt(x)
}

#[unsafe(no_mangle)]
pub extern "C" fn p3p_cbrt(x: f64) -> f64
    ensures { result ≡ Root.cbrt x }
{
    ieee754::cbrt::cbrt(x)
}

#[unsafe(no_mangle)]
pub extern "C" fn p3p_fma(x: f64, y: f64, z: f64) -> f64
    ensures { result ≡ Fma.fma x y z }
{
    ieee754::fma::fma(x, y, z)
}

#[unsafe(no_mangle)]
pub extern "C" fn p3p_copysign(x: f64, y: f64) -> f64
    ensures { result ≡ CopySign.copysign x y }
{
    ieee754::copysign::copysign(x, y)
}

#[unsafe(no_mangle)]
pub extern "C" fn p3p_max(x: f64, y: f64) -> f64
    ensures { result ≡ Maximum.max x y }
{
    ieee754::max::max(x, y)
}

/// -1, 0 or 1: x is below y, equal to it, or above it.
#[unsafe(no_mangle)]
pub extern "C" fn p3p_total_cmp(x: f64, y: f64) -> i32
    ensures { result ≡ ordering (total_cmp x y) }
{
    match ieee754::total_cmp::total_cmp(x, y) {
        Ordering::Less => -1,
        Ordering::Equal => 0,
        Ordering::Greater => 1,
    }
}
