// Kept: rows are numbered from 1.
ghost use Rattle.std.specs.Prelude.{◌≡◌, ◌+◌, ◌≤◌, length};
ghost use Rattle.draws.specs.Checks.{checked};
ghost use Rattle.settlement.specs.declared.line.SeriesTerms.{SeriesTerms};
ghost use Rattle.settlement.specs.Lines.{series_lines, written};
ghost use Rattle.dayend.specs.Statement.{statement_lines, places_needed, statement_checks};

use ledger::{Ledger, Refusal, Series};
use settlement::{Line, SeriesTerms, count_series, write_series};

// How many lines a series of the book has, whatever its terms.
fn count_row(row: &Series) -> usize
    ensures { (t : SeriesTerms) → result ≡ length (series_lines t row.now.cells) }
{
    count_series(&row.cells)
}

// How many lines the statement has.
fn places_needed(book: &Ledger) -> usize
    ensures { result ≡ places_needed book.now.state }
{
    book.state.series.rows.iter().map(count_row).sum()
}

// What the lines of a series share.
// Kept: made of a row and of the day's terms, so this is no From.
fn terms_of(row: &Series, series: u32, size: u32, day: u32) -> SeriesTerms
    requires { day ≤ 99_999 }
    ensures { result ≡ record { series = series; right = row.now.contract.right; strike = row.now.contract.strike; size = size; settlement_day = day + 2 } }
{
    SeriesTerms {
        series,
        right: row.contract.right,
        strike: row.contract.strike,
        size,
        settlement_day: day + 2,
    }
}

// Why a statement is turned back, if it is.
// Kept: the length of the list alone, since nothing is written here.
pub fn check_statement(book: &Ledger, room: usize) -> Result<(), Refusal>
    ensures { result ≡ checked (statement_checks book.now.state room) }
{
    let needed = places_needed(book);
    if needed > room {
        return Err(Refusal::StatementShort(needed as u32));
    }
    Ok(())
}

// Writes the statement from the first place on, and answers how many lines it has.
pub fn write_statement(book: &Ledger, lines: &mut [Line]) -> u32
    requires { places_needed book.now.state ≤ length lines.old }
    ensures count { result ≡ places_needed book.now.state }
    ensures after { lines.new ≡ written lines.old 0 (statement_lines book.now.state) }
{
    let state = &book.state;
    let mut next = 0;
    for (i, row) in state.series.rows.iter().enumerate() {
        let terms = terms_of(row, i as u32 + 1, state.terms.size, state.day);
        next = write_series(lines, next, &terms, &row.cells);
    }
    next as u32
}
