// Kept: facts on a book and a number: a type of the number would hold the loan of a book that the effect changes.
// Kept: rows are numbered from 1, and a request has the account's number.
ghost use Rattle.std.specs.Prelude.{◌≡◌, ℕ, false, [], ◌+◌, ◌<◌, ◌≤◌, slice_index, slice_index_or};
ghost use Rattle.draws.specs.Checks.{checked};
ghost use Rattle.positions.specs.Places.{each};
ghost use Rattle.ledger.specs.Tables.{RowNumber, no_request, with_listing};
ghost use Rattle.dayend.specs.Cutoff.{any_expiring, cut_checks, asks, asked, AsksAt, automatic, cut_by, cut_series, cut_legs, cut};
ghost use Rattle.ledger.specs.Sound.{Facts};

use exercise::criterion;
use ledger::{Account, Contract, Ledger, Refusal, Request, Requests, Series, Stage, State};
use positions::{Cell, Leg, LegEvent};
use std::array;

// The place of the account that a pending request in the series asks for.
fn place_of(request: &Request, series: u32) -> Option<usize>
    ensures { AsksAt request.now series result }
{
    let asks = request.pending && request.series == series;
    (asks && (1..=32).contains(&request.account)).then(|| request.account as usize - 1)
}

// Adds what a request asks in the series to what each account wants.
fn note(wanted: &mut [u32; 32], request: &Request, series: u32)
    requires room { (a : ℕ) → a < 32 → slice_index wanted.old a ≤ 12_800_000 }
    requires small { request.now.quantity ≤ 100_000 }
    ensures { (a : ℕ) → a < 32 → slice_index wanted.new a ≡ slice_index wanted.old a + asks (a + 1) series request.now }
{
    if let Some(at) = place_of(request, series) {
        wanted[at] += request.quantity;
    }
}

// What all requests ask of each account in the series.
fn asked_in(requests: &Requests, series: u32) -> [u32; 32]
    requires count { requests.now.count ≤ 128 }
    requires small { (k : ℕ) → (slice_index_or requests.now.rows k no_request).quantity ≤ 100_000 }
    ensures { (a : ℕ) → a < 32 → slice_index result a ≡ asked requests.now (a + 1) series }
{
    let mut wanted = [0; 32];
    for request in requests.in_use() {
        note(&mut wanted, request, series);
    }
    wanted
}

// Whether a listed series expires today.
fn any_expiring(book: &Ledger) -> bool
    ensures { result ≡ any_expiring book.now.state book.now.state.series.count }
{
    let state = &book.state;
    state
        .series
        .in_use()
        .iter()
        .any(|row| row.contract.expires(state.previous, state.day))
}

// Why the cut is turned back, if it is.
pub fn check_cut(book: &Ledger) -> Result<(), Refusal>
    ensures { result ≡ checked (cut_checks book.now.state) }
{
    if any_expiring(book) && book.state.fixing.is_none() {
        return Err(Refusal::NoFixingPrice);
    }
    Ok(())
}

// Whether each account's longs in the series are exercised without a request.
fn automatic_in(book: &State, series: u32) -> [bool; 32]
    requires { RowNumber 32 series }
    ensures { (a : ℕ) → a < 32 → slice_index_or result a false ≡ automatic book.now (a + 1) series }
{
    let Contract { right, strike, .. } = book.series.row(series).contract;
    let Some(price) = book.fixing.filter(|_| book.expiring(series)) else {
        return [false; 32];
    };
    array::from_fn(|a| criterion(book, a as u32 + 1, right).meets(right, strike, price))
}

// The same for each series.
// Kept: made before the rows are lent: it reads the whole book, whose rows the loop of `cut_rows` changes.
fn automatic(book: &State) -> [[bool; 32]; 32]
    ensures { (i a : ℕ) → i < 32 → a < 32 → slice_index_or (slice_index_or result i []) a false ≡ automatic book.now (a + 1) (i + 1) }
{
    array::from_fn(
        |i|
            requires { i < 32 }
            ensures { (a : ℕ) → a < 32 → slice_index_or result a false ≡ automatic book.entry.now (a + 1) (i + 1) }
        { automatic_in(book, i as u32 + 1) },
    )
}

// Cuts the cells of a series. One with neither longs nor contracts due stays as it is.
// Kept: accounts and cells lie apart in the book, and what is wanted is added up for all accounts at once.
fn cut_cells(
    cells: &mut [Cell; 32],
    accounts: &[Account; 32],
    wanted: &[u32; 32],
    automatic: &[bool; 32],
)
    ensures { cells.new ≡ each (cut_by accounts.now wanted.now automatic.now) cells.old }
{
    // Kept: an index, since a proof learns nothing of what a zip with `iter_mut` writes.
    for (a, cell) in cells.iter_mut().enumerate() {
        if cell.longs == 0 && cell.due == 0 {
            continue;
        }
        let netted = cell.netted(accounts[a].account_type);
        *cell = netted.with_due(wanted[a], automatic[a]);
    }
}

// Cuts each series.
// Kept: `Facts` is asked: contracts are due before the stage is Cut, so what this leaves is no Ledger yet.
fn cut_rows(book: &mut State)
    requires { Facts book.old }
    ensures { book.new ≡ with_listing book.old (record book.old.series { rows = each (cut_series book.old) book.old.series.rows }) }
{
    let automatic = automatic(book);
    let State {
        accounts,
        series,
        requests,
        ..
    } = book;
    // Kept: an index, as in `cut_cells`.
    for (i, row) in series.rows.iter_mut().enumerate() {
        let wanted = asked_in(requests, i as u32 + 1);
        cut_cells(&mut row.cells, &accounts.rows, &wanted, &automatic[i]);
    }
}

// Nets the positions, sets what is due, and frees held legs.
pub fn cut(book: &mut Ledger)
    ensures { book.new.state ≡ cut book.old.state }
{
    cut_rows(&mut book.state);
    cut_legs(&mut book.state.legs.rows);
    book.state.stage = Stage::Cut;
}

fn cut_legs(legs: &mut [Leg; 256])
    ensures { legs.new ≡ cut_legs legs.old }
{
    for leg in legs.iter_mut() {
        leg.step(LegEvent::Cut);
    }
}
