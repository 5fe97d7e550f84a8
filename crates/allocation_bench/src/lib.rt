// What the benchmark of the allocation calls from outside.
#![tactic(auto)]

ghost use Rattle.std.specs.Prelude.{◌≡◌, replicate, slice_set};
ghost use Rattle.draws.specs.Sources.{generator};
ghost use Rattle.allocation.specs.Allocation.{allocation};
ghost use Rattle.allocation_bench.specs.Digest.{digest};

use allocation::allocate;
use draws::Generator;

// One number for a list of counts, which depends on each of them and on its place. Compiled apart from the allocation,
// which is what is timed.
#[inline(never)]
fn digest_of(counts: &[u32]) -> u64
    ensures { result ≡ digest counts.now }
{
    counts.iter().fold(0, |all: u64, count| {
        all.wrapping_mul(31).wrapping_add(u64::from(*count))
    })
}

// Assigns the exercised contracts in blocks of 1 to 64 accounts with 100,000 short contracts in all, 1,562 for each and
// the rest for the last, by a generator from the state with 100,000 draws, and answers the digest of the counts.
#[unsafe(no_mangle)]
pub extern "C" fn allocation_bench(state: u64, exercised: u32) -> u64
    ensures { result ≡ digest (allocation (generator state 100_000) (slice_set (replicate 64 1_562) 63 1_594) exercised 1 (replicate 64 0)).assigned }
{
    let mut shorts = [1_562; 64];
    shorts[63] = 1_594;
    let mut assigned = [0; 64];
    let mut source = Generator::new(state, 100_000);
    let _ = allocate(&mut source, &shorts, exercised, 1, &mut assigned);
    digest_of(&assigned)
}
