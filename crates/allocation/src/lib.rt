// Assignment of exercised contracts to the accounts that are short, by draw.
// Kept: fields of one allocation: a struct of the three that are read would be made at each call and opened at once.
#![tactic(auto)]

ghost use Rattle.std.specs.Prelude.{◌≡◌, ◌<◌, ◌≤◌, [], length, sum};
ghost use Rattle.draws.specs.Meaning.{behind, behind_all};
ghost use Rattle.draws.specs.Replies.{replied};
ghost use Rattle.allocation.specs.Assigned.{draws_needed, bounds, assigned_by};
ghost use Rattle.allocation.specs.Allocation.{allocation};
ghost use Rattle.allocation.specs.Replies.{reply_of};
ghost use Rattle.allocation.specs.Laws.{AlwaysSettled, RestsOnAnswers, Worked, NothingExercised};

use draws::Draws;

// The most accounts that one list of short contracts may have.
const ACCOUNTS: usize = 64;
// The most short contracts of a list.
const CONTRACTS: u64 = 100_000;
// The largest block.
const BLOCK: u32 = 1_000;

/// Why nothing was assigned.
#[derive(Clone, Copy, PartialEq, Eq, Debug)]
pub enum Unassigned {
    /// The list for the assigned counts has another length than the list of shorts.
    PlacesDiffer,
    /// More than 64 accounts.
    TooManyAccounts,
    /// More than 100,000 short contracts.
    TooManyShorts,
    /// A block of 0 or of more than 1,000 contracts.
    BlockOutOfRange,
    /// More contracts exercised than are short.
    TooManyExercised,
    /// The source has fewer draws than are needed, which are these.
    DrawsShort(u32),
}

// The short contracts of all accounts.
fn total(shorts: &[u32]) -> u64
    requires { length shorts.now ≤ 64 }
    ensures { result ≡ sum shorts.now }
{
    shorts.iter().map(|count| u64::from(*count)).sum()
}

/// The draws that so many exercised contracts take: those over the block, rounded up, and none for a block of 0.
pub fn draws_for(exercised: u32, block: u32) -> u32
    ensures { result ≡ draws_needed exercised block }
{
    if block == 0 {
        return 0;
    }
    exercised.div_ceil(block)
}

// What an allocation answers: the draws that it takes, or the first check that fails.
fn check<S: Draws>(
    source: &S,
    shorts: &[u32],
    exercised: u32,
    block: u32,
    assigned: &[u32],
) -> Result<u32, Unassigned>
    ensures { result ≡ (allocation (S.meaning source.now) shorts.now exercised block assigned.now).reply }
{
    if assigned.len() != shorts.len() {
        return Err(Unassigned::PlacesDiffer);
    }
    if shorts.len() > ACCOUNTS {
        return Err(Unassigned::TooManyAccounts);
    }
    let all = total(shorts);
    if all > CONTRACTS {
        return Err(Unassigned::TooManyShorts);
    }
    if !(1..=BLOCK).contains(&block) {
        return Err(Unassigned::BlockOutOfRange);
    }
    if u64::from(exercised) > all {
        return Err(Unassigned::TooManyExercised);
    }
    let draws = draws_for(exercised, block);
    if source.supply() < u64::from(draws) {
        return Err(Unassigned::DrawsShort(draws));
    }
    Ok(draws)
}

// The starting contract, by a draw that cannot be refused.
fn draw_start<S: Draws>(source: &mut S, remaining: u32) -> u32
    requires some { 0 < remaining }
    requires supplied { 0 < (S.meaning source.old).supply }
    ensures answer { result ≡ (S.meaning source.old).answer [] remaining }
    ensures left { S.meaning source.new ≡ behind remaining (S.meaning source.old) }
{
    source.draw(remaining).unwrap()
}

// Assigns the exercised contracts block by block.
#[tactic(auto, using(crate::proofs::Parts::nothing))]
fn assign<S: Draws>(
    source: &mut S,
    shorts: &[u32],
    exercised: u32,
    block: u32,
    assigned: &mut [u32],
)
    requires places { length assigned.old ≡ length shorts.now }
    requires accounts { length shorts.now ≤ 64 }
    requires few { sum shorts.now ≤ 100_000 }
    requires positive { 1 ≤ block }
    requires enough { exercised ≤ sum shorts.now }
    requires supplied { draws_needed exercised block ≤ (S.meaning source.old).supply }
    ensures shares { assigned.new ≡ assigned_by (S.meaning source.old) block exercised shorts.now }
    ensures drawn { S.meaning source.new ≡ behind_all (bounds (draws_needed exercised block) (sum shorts.now) block) (S.meaning source.old) }
{
    assigned.fill(0);
    let mut remaining = total(shorts) as u32;
    let mut left = exercised;
    // Kept: what is left ends the loop, and gives the last block its size; a count of the draws would stand beside it.
    'draws: while left > 0 {
        let start = draw_start(source, remaining);
        let count = block.min(left);
        remaining -= count;
        left -= count;
        let mut skip = start;
        let mut need = count;
        // Down the list of accounts, and on from its top.
        for _ in 0..2u8 {
            // Kept: an index, since a proof learns nothing of what a zip with `iter_mut` writes.
            for (i, short) in shorts.iter().enumerate() {
                let open_contracts = short - assigned[i];
                let passed = skip.min(open_contracts);
                let taken = (open_contracts - passed).min(need);
                skip -= passed;
                assigned[i] += taken;
                need -= taken;
                if need == 0 {
                    continue 'draws;
                }
            }
        }
        prove!(need == 0);
    }
}

/// Assigns the exercised contracts to the short contracts of the accounts, block by block, each block from a starting
/// contract that a draw picks, and answers how many draws that took; or assigns and draws nothing, and answers why.
/// `shorts` has a count for each account, and so has `assigned`; all counts, and the block, are of contracts.
pub fn allocate<S: Draws>(
    source: &mut S,
    shorts: &[u32],
    exercised: u32,
    block: u32,
    assigned: &mut [u32],
) -> Result<u32, Unassigned>
    ensures reply { result ≡ (allocation (S.meaning source.old) shorts.now exercised block assigned.old).reply }
    ensures number { replied reply_of result ≡ replied reply_of (allocation (S.meaning source.old) shorts.now exercised block assigned.old).reply }
    ensures assigned { assigned.new ≡ (allocation (S.meaning source.old) shorts.now exercised block assigned.old).assigned }
    ensures source { S.meaning source.new ≡ (allocation (S.meaning source.old) shorts.now exercised block assigned.old).source }
    ensures settled { AlwaysSettled }
    ensures rests { RestsOnAnswers }
    ensures worked { Worked }
    ensures nothing { NothingExercised }
{
    let used = check(source, shorts, exercised, block, assigned)?;
    assign(source, shorts, exercised, block, assigned);
    Ok(used)
}
