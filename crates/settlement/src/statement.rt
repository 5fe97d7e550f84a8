// Kept: facts on the size, as `SeriesTerms` says.
// Kept: facts on a cell: laws and definitions are of any cell, so it has no ghost field.
// Kept: rows are numbered from 1.
ghost use Rattle.std.specs.Prelude.{◌≡◌, ℕ, ◌+◌, ◌≤◌, [], ◌∷◌, length, if◌then◌else◌, ◌==◌, slice_index_or};
ghost use Rattle.positions.specs.Cells.{no_cell};
ghost use Rattle.settlement.specs.Lines.{exercised_line, covered_line, uncovered_line, if_any, cell_lines, series_lines, written, Countable};
ghost use Rattle.settlement.specs.Laws.{LinesEven, LinesSmall, WorkedLines};
ghost use Rattle.settlement.specs.declared.line.SeriesTerms.{SeriesTerms};

use crate::line::{Line, Method, Role, SeriesTerms};
use positions::Cell;

// The lines of one account, among them those of no contracts: of what it exercised, and of what was assigned to it,
// covered and not.
fn lines_of(terms: &SeriesTerms, account: u32, cell: &Cell) -> [Line; 3]
    requires counts { Countable cell.now }
    requires size { terms.now.size ≤ 10_000 }
    ensures { result ≡ exercised_line terms.now account cell.now ∷ covered_line terms.now account cell.now ∷ uncovered_line terms.now account cell.now ∷ [] }
{
    let uncovered = cell.assigned - cell.covered;
    [
        terms.line_for(account, Role::Exerciser, Method::Other, cell.exercised),
        terms.line_for(account, Role::Assignee, Method::Covered, cell.covered),
        terms.line_for(account, Role::Assignee, Method::Other, uncovered),
    ]
}

// A slice of lines, and the place of the next line in it.
// Kept: the place: series after series goes into one lent slice, each from the place behind the last.
#[derive(Drop)]
struct Writer<'a> {
    lines: &'a mut [Line],
    at: usize,
}

impl Writer<'_> {
    // Writes a line, unless it is of no contracts.
    fn put(&mut self, line: Line)
        requires { self.old.at + length (if_any line) ≤ length self.old.lines.now }
        ensures same_slice { self.new.lines.ghost_name ≡ self.old.lines.ghost_name }
        ensures place { self.new.at ≡ self.old.at + length (if_any line) }
        ensures after { self.new.lines.now ≡ written self.old.lines.now self.old.at (if_any line) }
    {
        if !line.is_empty() {
            self.lines[self.at] = line;
            self.at += 1;
        }
    }

    // Writes the lines of one account.
    fn put_account(&mut self, terms: &SeriesTerms, account: u32, cell: &Cell)
        requires fits { self.old.at + length (cell_lines terms.now account cell.now) ≤ length self.old.lines.now }
        requires counts { Countable cell.now }
        requires size { terms.now.size ≤ 10_000 }
        ensures same_slice { self.new.lines.ghost_name ≡ self.old.lines.ghost_name }
        ensures place { self.new.at ≡ self.old.at + length (cell_lines terms.now account cell.now) }
        ensures after { self.new.lines.now ≡ written self.old.lines.now self.old.at (cell_lines terms.now account cell.now) }
    {
        if cell.exercised == 0 && cell.assigned == 0 {
            return;
        }
        for line in lines_of(terms, account, cell) {
            self.put(line);
        }
    }
}

/// Writes the lines of one series from a place on, and answers the place after them.
// Kept: the place: series after series goes into one lent slice, each from the place behind the last.
pub fn write_series(lines: &mut [Line], at: usize, terms: &SeriesTerms, cells: &[Cell; 32]) -> usize
    requires fits { at + length (series_lines terms.now cells.now) ≤ length lines.old }
    requires counts { (j : ℕ) → Countable (slice_index_or cells.now j no_cell) }
    requires size { terms.now.size ≤ 10_000 }
    ensures place { result ≡ at + length (series_lines terms.now cells.now) }
    ensures after { lines.new ≡ written lines.old at (series_lines terms.now cells.now) }
    ensures even { LinesEven }
    ensures small { LinesSmall }
    ensures worked { WorkedLines }
{
    let mut writer = Writer { lines, at };
    for (i, cell) in cells.iter().enumerate() {
        writer.put_account(terms, i as u32 + 1, cell);
    }
    writer.at
}

// How many lines there are of so many contracts.
fn count_any(contracts: u32) -> usize
    ensures count { result ≡ (if contracts == 0 then 0 else 1) }
    ensures few { result ≤ 1 }
{
    usize::from(contracts > 0)
}

// How many lines one account has, whatever its series and its number.
fn count_account(cell: &Cell) -> usize
    ensures { (t : SeriesTerms) (account : ℕ) → result ≡ length (cell_lines t account cell.now) }
{
    let uncovered = cell.assigned.saturating_sub(cell.covered);
    count_any(cell.exercised) + count_any(cell.covered) + count_any(uncovered)
}

/// How many lines a series with these cells has, whatever its terms.
pub fn count_series(cells: &[Cell; 32]) -> usize
    ensures { (t : SeriesTerms) → result ≡ length (series_lines t cells.now) }
{
    cells.iter().map(count_account).sum()
}
