//! Numbers below 2^128 as two words of 64 bits: sums, differences, products, numbers moved up, and
//! what is left when digits are cut off.
ghost use Rattle.std.specs.Prelude.{◌≡◌, ◌+◌, ◌*◌, ◌/◌, ◌^◌, ◌<◌, ◌≤◌, IfSome, nat_lt};
ghost use Rattle.ieee754_parts.specs.Jam.{jam};
ghost use Rattle.ieee754_parts.specs.Value.{value};

/// hi * 2^64 + lo.
#[derive(Clone, Copy)]
pub struct Wide {
    pub hi: u64,
    pub lo: u64,
}

// a + b. The low word is the sum modulo 2^64, wrapped on purpose, and there is a carry exactly
// where it is less than b.
pub(crate) fn add_words(a: u64, b: u64) -> Wide
    ensures { (result.hi ≤ 1) × (value result ≡ a + b) }
{
    let lo = a.wrapping_add(b);
    if lo < b {
        Wide { hi: 1, lo }
    } else {
        Wide { hi: 0, lo }
    }
}

/// a * b, from halves of 32 bits. The carries go up one after the other, a form that compilers make
/// one multiplication of.
pub fn product(a: u64, b: u64) -> Wide
    requires { (a < 2 ^ 62) × (b < 2 ^ 62) }
    ensures { value result ≡ a * b }
{
    let a1 = a / 0x1_0000_0000;
    let a0 = a % 0x1_0000_0000;
    let b1 = b / 0x1_0000_0000;
    let b0 = b % 0x1_0000_0000;
    let low = a0 * b0;
    let cross = a1 * b0;
    let other = a0 * b1;
    let first = low / 0x1_0000_0000 + cross;
    let second = first % 0x1_0000_0000 + other;
    let lo = ((cross + other) << 32).wrapping_add(low);
    Wide {
        hi: a1 * b1 + first / 0x1_0000_0000 + second / 0x1_0000_0000,
        lo,
    }
}

/// a + b.
pub fn add_wide(a: Wide, b: Wide) -> Wide
    requires { a.hi + b.hi + 1 < 2 ^ 64 }
    ensures { value result ≡ value a + value b }
{
    let low = add_words(a.lo, b.lo);
    Wide {
        hi: a.hi + b.hi + low.hi,
        lo: low.lo,
    }
}

// a - b, for a b that is no larger.
pub(crate) fn sub_wide(a: Wide, b: Wide) -> Wide
    requires { value b ≤ value a }
    ensures { value result + value b ≡ value a }
{
    let lo = a.lo.wrapping_sub(b.lo);
    if a.lo < b.lo {
        Wide {
            hi: a.hi - b.hi - 1,
            lo,
        }
    } else {
        Wide {
            hi: a.hi - b.hi,
            lo,
        }
    }
}

/// a - b, unless it is below 0 or does not fit a word.
pub fn word_difference(a: Wide, b: Wide) -> Option<u64>
    requires { b.hi + 1 < 2 ^ 64 }
    ensures { IfSome result (λ rest. rest + value b ≡ value a) }
{
    let rest = a.lo.wrapping_sub(b.lo);
    if a.lo < b.lo {
        (a.hi == b.hi + 1).then_some(rest)
    } else {
        (a.hi == b.hi).then_some(rest)
    }
}

// Whether a < b.
pub(crate) fn less_wide(a: Wide, b: Wide) -> bool
    ensures { result ≡ nat_lt (value a) (value b) }
{
    if a.hi == b.hi {
        a.lo < b.lo
    } else {
        a.hi < b.hi
    }
}

/// v / 2^k, where that fits a word.
pub fn shift_right(v: Wide, k: u64) -> u64
    requires { (0 < k) × (k < 64) × (v.hi < 2 ^ k) }
    ensures { result ≡ value v / 2 ^ k }
{
    (v.hi << (64 - k)) + (v.lo >> k)
}

/// w * 2^k.
pub fn shift_left(w: u64, k: u64) -> Wide
    requires { (0 < k) × (k < 64) }
    ensures { value result ≡ w * 2 ^ k }
{
    Wide {
        hi: w >> (64 - k),
        lo: w << k,
    }
}

// w / 2^k, with the last digit set where that drops anything.
pub(crate) fn jam(w: u64, k: u64) -> u64
    ensures { result ≡ jam k w }
{
    if k < 64 {
        let kept = w >> k;
        if kept << k == w { kept } else { kept | 1 }
    } else {
        if w == 0 { 0 } else { 1 }
    }
}

// The upper word, with the last digit set where the lower one is not 0.
fn jam_top(v: Wide) -> u64
    ensures { result ≡ jam 64 (value v) }
{
    if v.lo == 0 { v.hi } else { v.hi | 1 }
}

// v / 2^k, with the last digit set where that drops anything.
pub(crate) fn jam_wide(v: Wide, k: u64) -> Wide
    ensures { value result ≡ jam k (value v) }
{
    if k == 0 {
        v
    } else if k < 64 {
        Wide {
            hi: v.hi >> k,
            lo: (v.hi << (64 - k)) + jam(v.lo, k),
        }
    } else {
        Wide {
            hi: 0,
            lo: jam(jam_top(v), k - 64),
        }
    }
}
