//! How many poses a stated count stands for.
ghost use Rattle.std.specs.Prelude.{◌≡◌, min};

/// A stated pose count above 4 is read as 4.
pub fn at_most_four(count: u32) -> u32
    ensures { result ≡ min count 4 }
{
    count.min(4)
}
