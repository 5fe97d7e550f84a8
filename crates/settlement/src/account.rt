// Kept: facts on a cell: laws and definitions are of any cell, so it has no ghost field.
ghost use Rattle.std.specs.Prelude.{◌≡◌, ◌-◌, ◌*◌, ◌≤◌};
ghost use Rattle.settlement.specs.Account.{covering, settled, lapsed, at_end};

use positions::{Cell, Right};

// What the assignment of a series goes by.
#[derive(Clone, Copy, Debug, PartialEq, Eq)]
pub struct AssignmentTerms {
    pub right: Right,
    // The shares of a contract.
    pub size: u32,
    // The contracts that one draw assigns.
    pub block: u32,
    // Whether the series expires with the day.
    // Kept: yes or no, with no value beside it.
    pub lapses: bool,
    pub ghost sized: { 1 ≤ size },
}

impl AssignmentTerms {
    // How many of the assigned contracts the shares lodged cover.
    pub(crate) fn covered_by(&self, shares: u32, assigned: u32) -> u32
        ensures { result ≡ covering self.now.right self.now.size shares assigned }
    {
        match self.right {
            Right::Call if assigned > 0 => assigned.min(shares / self.size),
            _ => 0,
        }
    }

    // The shares lodged, less those that the covered contracts deliver.
    pub(crate) fn shares_left(&self, shares: u32, covered: u32) -> u32
        requires { covered * self.now.size ≤ shares }
        ensures { result ≡ shares - covered * self.now.size }
    {
        let delivered = covered * self.size;
        shares - delivered
    }
}

// The cell when what is due is exercised, and so many of its shorts are assigned.
fn settle(cell: &Cell, assigned: u32, covered: u32) -> Cell
    requires { (cell.now.due ≤ cell.now.longs) × (assigned ≤ cell.now.shorts) }
    ensures { result ≡ settled cell.now assigned covered }
{
    Cell {
        longs: cell.longs - cell.due,
        shorts: cell.shorts - assigned,
        due: 0,
        exercised: cell.due,
        assigned,
        covered,
        ..*cell
    }
}

// The cell without its longs and shorts.
fn lapse(cell: &Cell) -> Cell
    ensures { result ≡ lapsed cell.now }
{
    cell.with_sides(0, 0)
}

// The cell after the assignment: in a series that lapses no longs and shorts are left.
// Kept: yes or no, with no value beside it.
pub fn end_day(cell: &Cell, assigned: u32, covered: u32, lapses: bool) -> Cell
    requires { (cell.now.due ≤ cell.now.longs) × (assigned ≤ cell.now.shorts) }
    ensures { result ≡ at_end lapses (settled cell.now assigned covered) }
{
    let cell = settle(cell, assigned, covered);
    if lapses { lapse(&cell) } else { cell }
}
