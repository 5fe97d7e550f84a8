// What is printed of an allocation.
ghost use Rattle.std.specs.Prelude.{◌≡◌, ℕ, ◌-◌, [], ◌∷◌, slice_index};
ghost use Rattle.draws.specs.Sources.{tape};
ghost use Rattle.allocation.specs.Allocation.{allocation};

use crate::input::Order;
use allocation::{Unassigned, allocate};
use draws::{Draws, Pair, Recorder, Tape};
use std::alloc::Global;
use std::error::Error;
use std::fmt;

// Counts by account, those of 0 left out.
#[derive(Clone, Copy)]
struct Counts<'a>(&'a [u32]);

impl<'a> fmt::Display for Counts<'a> {
    fn fmt<W: fmt::Write>(&self, f: &mut fmt::Formatter<W>) -> fmt::Result {
        let counts = (1u64..).zip(self.0).filter(|(_, count)| **count > 0);
        for (i, (account, count)) in counts.enumerate() {
            let between = if i == 0 { "" } else { ", " };
            write!(f, "{between}account {account}: {count}")?;
        }
        Ok(())
    }
}

// Why nothing was assigned, with so many draws at hand.
#[derive(Clone, Copy, Debug)]
struct TurnedBack {
    cause: Unassigned,
    at_hand: u64,
}

impl fmt::Display for TurnedBack {
    fn fmt<W: fmt::Write>(&self, f: &mut fmt::Formatter<W>) -> fmt::Result {
        let at_hand = self.at_hand;
        match self.cause {
            Unassigned::PlacesDiffer => write!(f, "the lists differ in length"),
            Unassigned::TooManyAccounts => write!(f, "more than 64 accounts"),
            Unassigned::TooManyShorts => write!(f, "more than 100,000 short contracts"),
            Unassigned::BlockOutOfRange => write!(f, "the block is not from 1 to 1,000 contracts"),
            Unassigned::TooManyExercised => write!(f, "more contracts exercised than are short"),
            Unassigned::DrawsShort(needed) => {
                write!(f, "{needed} draws are needed, and {at_hand} are at hand")
            },
        }
    }
}

impl Error for TurnedBack {}

// What one draw takes from each account: the allocation of its contracts as one block from its starting contract.
fn one_draw(remaining: &[u32], start: u32, count: u32, taken: &mut [u32]) -> Result<u32, Unassigned>
    ensures reply { result ≡ (allocation (tape (start ∷ []) 0) remaining.now count count taken.old).reply }
    ensures taken { taken.new ≡ (allocation (tape (start ∷ []) 0) remaining.now count count taken.old).assigned }
{
    let numbers = [start];
    let mut source = Tape::new(&numbers);
    allocate(&mut source, remaining, count, count, taken)
}

// Takes from each account what is taken from it.
fn take_away(remaining: &mut [u32], taken: &[u32])
    ensures { (i : ℕ) → slice_index remaining.new i ≡ slice_index remaining.old i - slice_index taken.now i }
{
    // Kept: an index, since a proof learns nothing of what a zip with `iter_mut` writes.
    for (i, left) in remaining.iter_mut().enumerate() {
        *left = left.saturating_sub(taken.get(i).copied().unwrap_or(0));
    }
}

// A line for each draw.
fn draw_lines(
    heap: Global,
    text: &mut String,
    order: &Order,
    pairs: &[Pair],
) -> anyhow::Result<()> {
    writeln!(text, "draw  remaining   start   takes  from")?;
    let mut remaining = order.shorts.clone()?;
    let mut taken = vec![in heap; 0; remaining.len()]?;
    let mut left = order.exercised;
    for (draw, &Pair { bound, answer }) in (1u64..).zip(pairs) {
        let count = order.block.min(left);
        left -= count;
        let drawn = one_draw(remaining.as_slice(), answer, count, taken.as_mut_slice());
        drawn.map_err(|cause| TurnedBack { cause, at_hand: 1 })?;
        take_away(remaining.as_mut_slice(), taken.as_slice());
        let from = Counts(taken.as_slice());
        writeln!(text, "{draw:>4}{bound:>11}{answer:>8}{count:>8}  {from}")?;
    }
    Ok(())
}

// A line for each account.
fn account_lines(text: &mut String, shorts: &[u32], assigned: &[u32]) -> anyhow::Result<()> {
    writeln!(text, "account   short  assigned")?;
    for (account, (short, count)) in (1u64..).zip(shorts.iter().zip(assigned)) {
        writeln!(text, "{account:>7}{short:>8}{count:>10}")?;
    }
    Ok(())
}

// The allocation draw by draw, or why it was turned back.
pub fn report_of(heap: Global, order: &Order) -> anyhow::Result<String> {
    let shorts = order.shorts.as_slice();
    let accounts = shorts.len();
    let exercised = order.exercised;
    let block = order.block;
    let mut source = Recorder::new(Tape::new(order.tape.as_slice()));
    let at_hand = source.supply();
    let mut assigned = vec![in heap; 0; accounts]?;
    match allocate(
        &mut source,
        shorts,
        exercised,
        block,
        assigned.as_mut_slice(),
    ) {
        Ok(used) => {
            let (_, table) = source.into_parts();
            let mut text = format!(in heap;
                "accounts {accounts}, exercised {exercised}, block {block}\n"
            )?;
            draw_lines(heap, &mut text, order, table.recorded())?;
            account_lines(&mut text, shorts, assigned.as_slice())?;
            writeln!(text, "draws used: {used}")?;
            Ok(text)
        },
        Err(cause) => {
            let why = TurnedBack { cause, at_hand };
            Ok(format!(in heap; "turned back: {why}\n")?)
        },
    }
}
