//! How long requests took, by bounds of time.

ghost use Rattle.std.specs.Prelude.{◌≡◌, ◌<◌, ◌≤◌, length};
ghost use Rattle.mac_count.specs.Times.{bucket_of, count_passed};

/// How many bounds of time there are.
pub const BOUNDS: usize = 11;

/// How many buckets there are: one for what took no longer than each bound and longer than the one
/// before it, and one for what took longer than all.
pub const BUCKETS: usize = BOUNDS + 1;

/// The bounds, in microseconds.
pub const BOUND_MICROS: [u64; BOUNDS] = [
    10, 30, 100, 300, 1_000, 3_000, 10_000, 30_000, 100_000, 300_000, 1_000_000,
];

/// The bucket of what took so many microseconds: as many stand before it as there are bounds that
/// it passes.
pub fn bucket_of(micros: u64) -> usize
    ensures bucket { result ≡ bucket_of micros }
    ensures within { result < BUCKETS }
{
    count_passed(&BOUND_MICROS, micros)
}

/// How many of these bounds are passed.
fn count_passed(bounds: &[u64], micros: u64) -> usize
    ensures passed { result ≡ count_passed bounds.now micros }
    ensures within { result ≤ length bounds.now }
{
    let mut passed = 0;
    for bound in bounds {
        if *bound < micros {
            passed += 1;
        }
    }
    passed
}
