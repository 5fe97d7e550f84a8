// Kept: codes come as they were called in; a parameter of the enum would ask callers to have judged them.
// Kept: fields of a call: a struct of two to four numbers would be made at each call and opened in each check.
// Kept: facts on a book and a number: a type of the number would hold the loan of a book that the effect changes.
// Kept: rows are written by place, since a function that lends a `&mut` to an element of an array gets no proof.
// Kept: facts on cells: laws and definitions are of any cells, so these are no type of their own.
ghost use Rattle.std.specs.Prelude.{◌≡◌, ◌-◌, ◌≤◌, true, slice_index_or, if◌then◌else◌, Some, None, IfSome};
ghost use Rattle.draws.specs.Checks.{checked};
ghost use Rattle.positions.specs.Cells.{no_cell, on_side};
ghost use Rattle.positions.specs.Kinds.{side_of_code};
ghost use Rattle.positions.specs.Legs.{open_part};
ghost use Rattle.positions.specs.Rows.{Below};
ghost use Rattle.ledger.specs.Tables.{RowNumber, cell_at, leg_of};
ghost use Rattle.ledger.specs.Lookups.{has_account, has_series, has_leg};
ghost use Rattle.transfers.specs.Transfers.{rebooking_in, rebooking_of, still_there, rebooking_checks, transferred, transfer_checks, give_up_checks, given_up, confirms, take_up_checks, taken_up, position_checks, position_moved};
ghost use Rattle.ledger.specs.Sound.{Facts, ValidLeg};

use ledger::{Ledger, PositionTransfer, Refusal, State, is_free, is_held_for, is_within, limits};
use positions::{Cell, Leg, LegEvent, Side, place, total_longs};

// What a leg's transfer does to its series: the cells after it, and the leg's closed part in its new account.
#[derive(Clone, Copy)]
pub struct Rebooking {
    pub cells: [Cell; 32],
    pub closed: u32,
}

// Takes the leg from its account's cell and books it anew in the other's, and answers its closed part there.
fn rebook(cells: &mut [Cell; 32], leg: &Leg, account: u32) -> u32
    requires from { RowNumber 32 leg.now.account }
    requires to { RowNumber 32 account }
    requires small { Below cells.old 100_000 }
    requires part { (leg.now.closed ≤ leg.now.quantity) × (leg.now.quantity ≤ 100_000) }
    requires enough { open_part leg.now ≤ on_side leg.now.side (slice_index_or cells.old (leg.now.account - 1) no_cell) }
    ensures closed { result ≡ (rebooking_in cells.old leg.now account).closed }
    ensures after { cells.new ≡ (rebooking_in cells.old leg.now account).cells }
{
    let from = leg.account as usize - 1;
    let cell = cells[from];
    cells[from] = leg.left_by(&cell);
    place(
        cells,
        account as usize - 1,
        leg.side,
        leg.effect,
        leg.quantity,
    )
}

// Takes the leg from its account's cell and books it anew in the other's, in a copy of the series' cells.
fn rebooking_of(book: &Ledger, leg: &Leg, account: u32) -> Rebooking
    requires known { has_account book.now.state account ≡ true }
    requires valid { ValidLeg book.now.state leg.now }
    requires enough { still_there book.now.state leg.now ≡ true }
    ensures { result ≡ rebooking_of book.now.state leg.now account }
{
    let mut cells = book.state.series.row(leg.series).cells;
    let closed = rebook(&mut cells, leg, account);
    Rebooking { cells, closed }
}

// The leg of that number, if the book has it.
fn find_leg(book: &Ledger, n: u32) -> Option<Leg>
    ensures found { result ≡ if has_leg book.now.state n then Some (leg_of book.now.state n) else None }
    ensures valid { IfSome result (ValidLeg book.now.state) }
{
    book.state.has_leg(n).then(|| *book.state.legs.row(n))
}

// Whether the leg's account still holds the leg's open part on its side, and the series' longs stay within their limit
// when the leg is booked anew.
fn check_rebooking(book: &Ledger, leg: &Leg, account: u32) -> Result<(), Refusal>
    requires known { has_account book.now.state account ≡ true }
    requires valid { ValidLeg book.now.state leg.now }
    ensures { result ≡ checked (rebooking_checks book.now.state leg.now account) }
{
    let cell = book.state.cell(leg.account, leg.series);
    if leg.open_part() > cell.on_side(leg.side) {
        return Err(Refusal::TooFew);
    }
    if total_longs(&rebooking_of(book, leg, account).cells) > u64::from(limits::CONTRACTS) {
        return Err(Refusal::TooMany);
    }
    Ok(())
}

// Why a trade transfer is turned back, if it is.
pub fn check_transfer(book: &Ledger, leg: u32, account: u32) -> Result<(), Refusal>
    ensures { result ≡ checked (transfer_checks book.now.state leg account) }
{
    if !book.state.has_account(account) {
        return Err(Refusal::NoAccount);
    }
    let booked = find_leg(book, leg).ok_or(Refusal::NoLeg)?;
    if !book.state.another_of_same(booked.account, account) {
        return Err(Refusal::WrongAccount);
    }
    if !is_free(booked.state) {
        return Err(Refusal::LegHeld);
    }
    check_rebooking(book, &booked, account)
}

// Books the leg anew in the other account.
// Kept: `Facts` is asked; of a `&mut Ledger` the goal `invariant_of-book` does not close without the input stage.
pub fn transfer(book: &mut State, leg: u32, account: u32)
    requires sound { Facts book.old }
    requires known { has_account book.old account ≡ true }
    requires leg { has_leg book.old leg ≡ true }
    requires enough { still_there book.old (leg_of book.old leg) ≡ true }
    ensures { book.new ≡ transferred book.old leg account }
{
    let booked = *book.legs.row(leg);
    let cells = &mut book.series.rows[booked.series as usize - 1].cells;
    let closed = rebook(cells, &booked, account);
    book.legs.rebook(leg as usize - 1, account, closed);
}

// Why a give-up is turned back, if it is.
pub fn check_give_up(book: &Ledger, leg: u32, participant: u32) -> Result<(), Refusal>
    ensures { result ≡ checked (give_up_checks book.now.state leg participant) }
{
    if !is_within(participant, 1, limits::PARTICIPANT) {
        return Err(Refusal::OutOfRange);
    }
    let booked = find_leg(book, leg).ok_or(Refusal::NoLeg)?;
    if book.state.participant(booked.account) == participant {
        return Err(Refusal::WrongAccount);
    }
    if !is_free(booked.state) {
        return Err(Refusal::LegHeld);
    }
    Ok(())
}

// Holds the leg for the participant.
pub fn give_up(book: &mut Ledger, leg: u32, participant: u32)
    requires { has_leg book.old.state leg ≡ true }
    ensures { book.new.state ≡ given_up book.old.state leg participant }
{
    book.state
        .legs
        .step(leg as usize - 1, LegEvent::GiveUp(participant));
}

// Why a take-up is turned back, if it is.
// Kept: answer and account as called in: an Option of the account has no place for 3, or for 2 with an account.
pub fn check_take_up(book: &Ledger, leg: u32, answer: u32, account: u32) -> Result<(), Refusal>
    ensures { result ≡ checked (take_up_checks book.now.state leg answer account) }
{
    let confirms = answer == 1;
    if !is_within(answer, 1, 2) || !confirms && account != 0 {
        return Err(Refusal::OutOfRange);
    }
    if confirms && !book.state.has_account(account) {
        return Err(Refusal::NoAccount);
    }
    let booked = find_leg(book, leg).ok_or(Refusal::NoLeg)?;
    if is_free(booked.state) {
        return Err(Refusal::LegFree);
    }
    if !confirms {
        return Ok(());
    }
    if !is_held_for(booked.state, book.state.participant(account)) {
        return Err(Refusal::WrongAccount);
    }
    check_rebooking(book, &booked, account)
}

// Confirms the held leg for the account, or rejects it.
// Kept: `Facts` is asked, since `transfer` asks it.
pub fn take_up(book: &mut State, leg: u32, answer: u32, account: u32)
    requires sound { Facts book.old }
    requires leg { has_leg book.old leg ≡ true }
    requires known { confirms answer ≡ true → has_account book.old account ≡ true }
    requires enough { confirms answer ≡ true → still_there book.old (leg_of book.old leg) ≡ true }
    ensures { book.new ≡ taken_up book.old leg answer account }
{
    let event = if answer == 1 {
        transfer(book, leg, account);
        LegEvent::Confirm
    } else {
        LegEvent::Reject
    };
    book.legs.step(leg as usize - 1, event);
}

// Why a position transfer is turned back, if it is.
pub fn check_position(book: &Ledger, t: &PositionTransfer) -> Result<(), Refusal>
    ensures { result ≡ checked (position_checks book.now.state t.now) }
{
    let side = Side::try_from(t.side).map_err(|_| Refusal::OutOfRange)?;
    if !is_within(t.quantity, 1, limits::CONTRACTS) {
        return Err(Refusal::OutOfRange);
    }
    if !book.state.has_account(t.from) || !book.state.has_account(t.to) {
        return Err(Refusal::NoAccount);
    }
    if !book.state.has_series(t.series) {
        return Err(Refusal::NoSeries);
    }
    if book.state.expired(t.series) {
        return Err(Refusal::Expired);
    }
    if !book.state.another_of_same(t.from, t.to) {
        return Err(Refusal::WrongAccount);
    }
    let cell = book.state.cell(t.from, t.series);
    if t.quantity > cell.on_side(side) {
        return Err(Refusal::TooFew);
    }
    Ok(())
}

// Moves the contracts.
// Kept: `Facts` is asked; of a `&mut Ledger` the goal `invariant_of-book` does not close without the input stage.
pub fn move_position(book: &mut State, t: &PositionTransfer)
    requires sound { Facts book.old }
    requires from { has_account book.old t.now.from ≡ true }
    requires to { has_account book.old t.now.to ≡ true }
    requires listed { has_series book.old t.now.series ≡ true }
    requires few { t.now.quantity ≤ 100_000 }
    requires enough { t.now.quantity ≤ on_side (side_of_code t.now.side) (cell_at book.old t.now.from t.now.series) }
    ensures { book.new ≡ position_moved book.old t.now }
{
    let side = Side::of_code(t.side);
    let cells = &mut book.series.rows[t.series as usize - 1].cells;
    let giver = cells[t.from as usize - 1];
    let receiver = cells[t.to as usize - 1];
    cells[t.from as usize - 1] = giver.given(side, t.quantity);
    cells[t.to as usize - 1] = receiver.received(side, t.quantity);
}
