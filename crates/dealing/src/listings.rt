// Kept: codes come as they were called in; a parameter of the enum would ask callers to have judged them.
// Kept: fields of a call: a struct of two to four numbers would be made at each call and opened in each check.
ghost use Rattle.std.specs.Prelude.{◌≡◌, ◌+◌, ◌<◌, ◌≤◌};
ghost use Rattle.draws.specs.Checks.{checked};
ghost use Rattle.dealing.specs.Listings.{open_checks, account_checks, account_added, contract_of, listed, series_checks, series_added};

use ledger::{Account, Contract, Listing, Opening, Refusal, Series, State, is_within, limits};
use positions::{AccountType, Right};

// Why an opening is turned back, if it is.
pub fn check_open(o: &Opening) -> Result<(), Refusal>
    ensures { result ≡ checked (open_checks o.now) }
{
    if !is_within(o.number, 1, limits::BOOK_NUMBER)
        || !is_within(o.day, 1, limits::DAY)
        || !is_within(o.size, 1, limits::SIZE)
        || !is_within(o.block, 1, limits::BLOCK)
    {
        return Err(Refusal::OutOfRange);
    }
    Ok(())
}

// Kept: made of three numbers as called in, so this is no From.
pub fn contract_of(right: u32, strike: u32, expiry: u32) -> Contract
    ensures { result ≡ contract_of right strike expiry }
{
    Contract {
        right: Right::of_code(right),
        strike,
        expiry,
    }
}

// Whether a listed series has that contract.
pub fn lists(listing: &Listing, contract: &Contract) -> bool
    requires { listing.now.count ≤ 32 }
    ensures { result ≡ listed listing.now contract.now }
{
    listing.in_use().iter().any(|row| row.contract == *contract)
}

// Why an account is turned back, if it is.
pub fn check_account(book: &State, participant: u32, code: u32) -> Result<(), Refusal>
    ensures { result ≡ checked (account_checks book.now participant code) }
{
    if !is_within(participant, 1, limits::PARTICIPANT) || AccountType::try_from(code).is_err() {
        return Err(Refusal::OutOfRange);
    }
    if book.accounts.room() == 0 {
        return Err(Refusal::Full);
    }
    Ok(())
}

// Adds an account, and answers its number.
pub fn add_account(book: &mut State, participant: u32, code: u32) -> u32
    requires { book.old.accounts.count < 32 }
    ensures number { result ≡ book.old.accounts.count + 1 }
    ensures after { book.new ≡ account_added book.old participant code }
{
    let account_type = AccountType::of_code(code);
    book.accounts.push(Account::new(participant, account_type))
}

// Why a series is turned back, if it is.
pub fn check_series(book: &State, right: u32, strike: u32, expiry: u32) -> Result<(), Refusal>
    requires { book.now.series.count ≤ 32 }
    ensures { result ≡ checked (series_checks book.now right strike expiry) }
{
    if Right::try_from(right).is_err()
        || !is_within(strike, 1, limits::PRICE)
        || !is_within(expiry, book.day, limits::DAY)
    {
        return Err(Refusal::OutOfRange);
    }
    let contract = contract_of(right, strike, expiry);
    if lists(&book.series, &contract) {
        return Err(Refusal::ListedAlready);
    }
    if book.series.room() == 0 {
        return Err(Refusal::Full);
    }
    Ok(())
}

// Lists a series, and answers its number.
pub fn add_series(book: &mut State, right: u32, strike: u32, expiry: u32) -> u32
    requires { book.old.series.count < 32 }
    ensures number { result ≡ book.old.series.count + 1 }
    ensures after { book.new ≡ series_added book.old right strike expiry }
{
    let contract = contract_of(right, strike, expiry);
    book.series.push(Series::new(contract))
}
