// Kept: rows: the cells with a place, as `placed` has them; a method of the cell would leave `placed` to each caller.
// Kept: fields of a leg: a `&Leg` would ask callers for an account, a series, a price and a state besides.
// Kept: facts on counts: a step's result may be over the limit that the step asks, so one bounded type fits neither.
ghost use Rattle.std.specs.Prelude.{◌≡◌, ◌<◌, ◌≤◌, slice_index_or};
ghost use Rattle.positions.specs.Cells.{no_cell, closing};
ghost use Rattle.positions.specs.Rows.{total_longs, placed, Below};

use crate::cell::Cell;
use crate::kinds::{Effect, Side};

// Books a leg in the cell at a place, and answers its closed part.
pub fn place(cells: &mut [Cell; 32], at: usize, side: Side, effect: Effect, quantity: u32) -> u32
    requires { (at < 32) × ((Below cells.old 300_000) × (quantity ≤ 100_000)) }
    ensures closed { result ≡ closing (slice_index_or cells.old at no_cell) side effect quantity }
    ensures after { cells.new ≡ placed cells.old at side effect quantity }
{
    let cell = cells[at];
    let closed = cell.closing(side, effect, quantity);
    cells[at] = cell.booked(side, effect, quantity);
    closed
}

// The longs of all accounts.
pub fn total_longs(cells: &[Cell; 32]) -> u64
    ensures { result ≡ total_longs cells.now }
{
    cells.iter().map(|cell| u64::from(cell.longs)).sum()
}
