// Kept: codes come as they were called in; a parameter of the enum would ask callers to have judged them.
// Kept: fields of a call: a struct of two to four numbers would be made at each call and opened in each check.
// Kept: facts on a book and a number: a type of the number would hold the loan of a book that the effect changes.
// Kept: rows are written by place, since a function that lends a `&mut` to an element of an array gets no proof.
ghost use Rattle.std.specs.Prelude.{◌≡◌, ◌+◌, ◌≤◌, true};
ghost use Rattle.draws.specs.Checks.{checked};
ghost use Rattle.ledger.specs.Tables.{RowNumber, account_of};
ghost use Rattle.ledger.specs.Lookups.{has_account};
ghost use Rattle.exercise.specs.Criteria.{of_right, criterion_of, form_in_range, criterion_checks, own_of_form, criterion_set, fixing_checks, price_fixed, trading_closed, lodge_checks, lodged, withdrawal_checks, collateral_withdrawn};

use ledger::{Account, House, Ledger, Refusal, State, is_within, limits};
use positions::{Criterion, Right};

// Whether a criterion's form and value may stand: form 0 is for accounts alone.
// Kept: judged as called in, with whose it is: a Criterion has no form 0 or 3, and no place for a value beside 0.
fn form_in_range(account: u32, form: u32, value: u32) -> bool
    ensures { result ≡ form_in_range account form value }
{
    match form {
        0 => value == 0 && account != 0,
        1 => value <= limits::PERCENT,
        2 => value <= limits::PRICE,
        _ => false,
    }
}

// An account's own criterion of a form, none of form 0.
// Kept: made of two numbers, as `Criterion::of_form` is.
fn own_of_form(form: u32, value: u32) -> Option<Criterion>
    ensures { result ≡ own_of_form form value }
{
    (form != 0).then(|| Criterion::of_form(form, value))
}

// Of a value for calls and one for puts, the one for the right.
// Kept: accounts and house have a value for calls and one for puts by name, as the definitions of the law have them.
fn of_right<T: Copy>(right: Right, calls: T, puts: T) -> T
    ensures { result ≡ of_right right calls puts }
{
    match right {
        Right::Call => calls,
        Right::Put => puts,
    }
}

// Sets it.
fn set_of_right<T: Copy>(right: Right, calls: &mut T, puts: &mut T, value: T)
    ensures calls { calls.new ≡ of_right right value calls.old }
    ensures puts { puts.new ≡ of_right right puts.old value }
{
    match right {
        Right::Call => *calls = value,
        Right::Put => *puts = value,
    }
}

// The account's own criterion, else the house's.
pub fn criterion(book: &State, account: u32, right: Right) -> Criterion
    requires { RowNumber 32 account }
    ensures { result ≡ criterion_of book.now account right }
{
    let house = &book.house;
    let own = book.accounts.row(account);
    of_right(right, own.calls, own.puts).unwrap_or(of_right(right, house.calls, house.puts))
}

// Why a criterion is turned back, if it is.
pub fn check_criterion(
    book: &State,
    account: u32,
    right: u32,
    form: u32,
    value: u32,
) -> Result<(), Refusal>
    ensures { result ≡ checked (criterion_checks book.now account right form value) }
{
    if Right::try_from(right).is_err() || !form_in_range(account, form, value) {
        return Err(Refusal::OutOfRange);
    }
    if account != 0 && !book.has_account(account) {
        return Err(Refusal::NoAccount);
    }
    if !book.trading {
        return Err(Refusal::TradingClosed);
    }
    Ok(())
}

// Sets the house's criterion for a right, or an account's.
// Kept: account 0 is the house, as called in; an Option of the account would be made for this call alone.
pub fn set_criterion(book: &mut State, account: u32, right: u32, form: u32, value: u32)
    requires { account ≤ 32 }
    ensures { book.new ≡ criterion_set book.old account right form value }
{
    let right = Right::of_code(right);
    if account == 0 {
        let House { calls, puts } = &mut book.house;
        set_of_right(right, calls, puts, Criterion::of_form(form, value));
    } else {
        let Account { calls, puts, .. } = &mut book.accounts.rows[account as usize - 1];
        set_of_right(right, calls, puts, own_of_form(form, value));
    }
}

// Why a fixing price is turned back, if it is.
pub fn check_fixing(price: u32) -> Result<(), Refusal>
    ensures { result ≡ checked (fixing_checks price) }
{
    if !is_within(price, 1, limits::PRICE) {
        return Err(Refusal::OutOfRange);
    }
    Ok(())
}

// Notes the fixing price.
pub fn fix_price(book: &mut State, price: u32)
    ensures { book.new ≡ price_fixed book.old price }
{
    book.fixing = Some(price);
}

pub fn close_trading(book: &mut State)
    ensures { book.new ≡ trading_closed book.old }
{
    book.trading = false;
}

// The shares that are lodged for the account.
fn collateral(book: &Ledger, account: u32) -> u32
    requires { has_account book.now.state account ≡ true }
    ensures is { result ≡ (account_of book.now.state account).collateral }
    ensures small { result ≤ 99_999_999 }
{
    book.state.accounts.row(account).collateral
}

// Why shares are not lodged, if they are not.
pub fn check_lodge(book: &Ledger, account: u32, shares: u32) -> Result<(), Refusal>
    ensures { result ≡ checked (lodge_checks book.now.state account shares) }
{
    if !is_within(shares, 1, limits::SHARES) {
        return Err(Refusal::OutOfRange);
    }
    if !book.state.has_account(account) {
        return Err(Refusal::NoAccount);
    }
    if collateral(book, account) + shares > limits::SHARES {
        return Err(Refusal::TooMany);
    }
    Ok(())
}

// Lodges shares for the account.
pub fn lodge(book: &mut Ledger, account: u32, shares: u32)
    requires known { has_account book.old.state account ≡ true }
    requires room { (account_of book.old.state account).collateral + shares ≤ 99_999_999 }
    ensures { book.new.state ≡ lodged book.old.state account shares }
{
    book.state.accounts.rows[account as usize - 1].collateral += shares;
}

// Why shares are not withdrawn, if they are not.
pub fn check_withdrawal(book: &Ledger, account: u32, shares: u32) -> Result<(), Refusal>
    ensures { result ≡ checked (withdrawal_checks book.now.state account shares) }
{
    if !is_within(shares, 1, limits::SHARES) {
        return Err(Refusal::OutOfRange);
    }
    if !book.state.has_account(account) {
        return Err(Refusal::NoAccount);
    }
    if shares > collateral(book, account) {
        return Err(Refusal::TooFew);
    }
    Ok(())
}

// Takes shares of the account's back.
pub fn withdraw(book: &mut Ledger, account: u32, shares: u32)
    requires known { has_account book.old.state account ≡ true }
    requires there { shares ≤ (account_of book.old.state account).collateral }
    ensures { book.new.state ≡ collateral_withdrawn book.old.state account shares }
{
    book.state.accounts.rows[account as usize - 1].collateral -= shares;
}
