ghost use Rattle.std.specs.Prelude.{◌≡◌};
ghost use Rattle.draws.specs.Checks.{checked};
ghost use Rattle.positions.specs.Places.{each};
ghost use Rattle.dayend.specs.NextDay.{next_day_checks, carried_cells, carried_series, next_day};

use ledger::{Refusal, Request, Series, Stage, State, Table, is_within, limits};
use positions::{Cell, Leg};

// The cells of one series.
fn carry_cells(cells: &mut [Cell; 32])
    ensures { cells.new ≡ carried_cells cells.old }
{
    for cell in cells.iter_mut() {
        *cell = cell.carried();
    }
}

fn carry_rows(rows: &mut [Series; 32])
    ensures { rows.new ≡ each (λ _ r. carried_series r) rows.old }
{
    for row in rows.iter_mut() {
        carry_cells(&mut row.cells);
    }
}

// Why the next day is turned back, if it is.
pub fn check_next_day(book: &State, day: u32) -> Result<(), Refusal>
    ensures { result ≡ checked (next_day_checks book.now day) }
{
    if !is_within(day, 1, limits::DAY) {
        return Err(Refusal::OutOfRange);
    }
    if day <= book.day {
        return Err(Refusal::DayNotLater);
    }
    Ok(())
}

// Begins the day: terms, accounts, the house's criteria, series and positions are carried over, the rest starts anew.
pub fn next_day(book: &mut State, day: u32)
    ensures { book.new ≡ next_day book.old day }
{
    book.previous = book.day;
    book.day = day;
    book.stage = Stage::Input;
    book.trading = true;
    book.fixing = None;
    carry_rows(&mut book.series.rows);
    book.legs = Table::empty(Leg::empty());
    book.requests = Table::empty(Request::default());
}
