//! A third of a word without a division.
ghost use Rattle.std.specs.Prelude.{◌≡◌, ◌+◌, ◌/◌, ◌%◌, ◌^◌};

// The sum of a word's halves. Since 2^32 is 3 * 0x5555_5555 + 1, n is this sum plus
// 3 * 0x5555_5555 times its high half.
fn halves_sum(n: u64) -> u64
    ensures { result ≡ n / 2 ^ 32 + n % 2 ^ 32 }
{
    let high = n >> 32;
    let low = n - (high << 32);
    high + low
}

/// n / 3, by multiplying halves and shifting. The third of a number of at most 2^32 is one product,
/// shifted, since 3 * 0xaaaa_aaab is 2^33 + 1. The first sum can be larger, and its product too
/// large for a word, so its halves are added again.
pub fn third(n: u64) -> u64
    ensures { result ≡ n / 3 }
{
    let first = halves_sum(n);
    let second = halves_sum(first);
    ((n >> 32) + (first >> 32)) * 0x5555_5555 + ((second * 0xaaaa_aaab) >> 33)
}
