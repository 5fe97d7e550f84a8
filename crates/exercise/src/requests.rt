// Kept: fields of a call: a struct of two to four numbers would be made at each call and opened in each check.
// Kept: facts on a book and a number: a type of the number would hold the loan of a book that the effect changes.
// Kept: rows are written by place, since a function that lends a `&mut` to an element of an array gets no proof.
ghost use Rattle.std.specs.Prelude.{◌≡◌, ◌+◌, ◌<◌, true};
ghost use Rattle.draws.specs.Checks.{checked};
ghost use Rattle.ledger.specs.Tables.{RowNumber};
ghost use Rattle.ledger.specs.Lookups.{has_account, has_series};
ghost use Rattle.exercise.specs.Requests.{request_checks, request_added, has_pending, rejection_checks, request_rejected, denial_checks, denial_noted};

use ledger::{Ledger, Refusal, Request, State, is_within, limits};

// Why an exercise request is turned back, if it is.
pub fn check_request(book: &Ledger, account: u32, series: u32, quantity: u32) -> Result<(), Refusal>
    ensures { result ≡ checked (request_checks book.now.state account series quantity) }
{
    if !is_within(quantity, 1, limits::CONTRACTS) {
        return Err(Refusal::OutOfRange);
    }
    if !book.state.has_account(account) {
        return Err(Refusal::NoAccount);
    }
    if !book.state.has_series(series) {
        return Err(Refusal::NoSeries);
    }
    if book.state.expired(series) {
        return Err(Refusal::Expired);
    }
    if book.state.requests.room() == 0 {
        return Err(Refusal::Full);
    }
    Ok(())
}

// Adds a pending request, and answers its number.
pub fn add_request(book: &mut State, account: u32, series: u32, quantity: u32) -> u32
    requires { book.old.requests.count < 128 }
    ensures number { result ≡ book.old.requests.count + 1 }
    ensures after { book.new ≡ request_added book.old account series quantity }
{
    book.requests.push(Request {
        account,
        series,
        quantity,
        pending: true,
    })
}

// Whether there is such a request, not rejected yet.
fn has_pending(book: &Ledger, n: u32) -> bool
    ensures { result ≡ has_pending book.now.state n }
{
    book.state.requests.has(n) && book.state.requests.row(n).pending
}

// Why a request's rejection is turned back, if it is.
pub fn check_rejection(book: &Ledger, n: u32) -> Result<(), Refusal>
    ensures { result ≡ checked (rejection_checks book.now.state n) }
{
    if !has_pending(book, n) {
        return Err(Refusal::NoRequest);
    }
    Ok(())
}

// Rejects the request.
pub fn reject_request(book: &mut State, n: u32)
    requires { RowNumber 128 n }
    ensures { book.new ≡ request_rejected book.old n }
{
    book.requests.rows[n as usize - 1].pending = false;
}

// Why a denial is turned back, if it is.
pub fn check_denial(book: &Ledger, account: u32, series: u32, quantity: u32) -> Result<(), Refusal>
    ensures { result ≡ checked (denial_checks book.now.state account series quantity) }
{
    if quantity > limits::CONTRACTS {
        return Err(Refusal::OutOfRange);
    }
    if !book.state.has_account(account) {
        return Err(Refusal::NoAccount);
    }
    if !book.state.has_series(series) {
        return Err(Refusal::NoSeries);
    }
    if book.state.expired(series) {
        return Err(Refusal::Expired);
    }
    if !book.state.expiring(series) {
        return Err(Refusal::NotExpiring);
    }
    Ok(())
}

// Notes how many of the account's contracts are not to be exercised without a request.
pub fn deny(book: &mut Ledger, account: u32, series: u32, quantity: u32)
    requires known { has_account book.old.state account ≡ true }
    requires listed { has_series book.old.state series ≡ true }
    ensures { book.new.state ≡ denial_noted book.old.state account series quantity }
{
    let cell = &mut book.state.series.rows[series as usize - 1].cells[account as usize - 1];
    *cell = cell.with_denied(quantity);
}
