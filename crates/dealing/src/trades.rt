// Kept: facts on a book and a number: a type of the number would hold the loan of a book that the effect changes.
// Kept: rows are written by place, since a function that lends a `&mut` to an element of an array gets no proof.
// Kept: facts on cells: laws and definitions are of any cells, so these are no type of their own.
ghost use Rattle.std.specs.Prelude.{◌≡◌, ◌+◌, ◌≤◌, true};
ghost use Rattle.draws.specs.Checks.{checked};
ghost use Rattle.positions.specs.Rows.{Below};
ghost use Rattle.ledger.specs.Tables.{RowNumber};
ghost use Rattle.ledger.specs.Lookups.{has_account, has_series};
ghost use Rattle.dealing.specs.Trades.{trade_in_range, account_on, leg_on, placed_on, closed_on, buyer_leg, seller_leg, fill_in, fill_of, trade_checks, traded};
ghost use Rattle.ledger.specs.Sound.{Facts};

use ledger::{Ledger, Refusal, State, Trade, is_within, limits};
use positions::{Cell, Effect, Leg, LegState, Side, place, total_longs};

// What a trade does to its series: the cells after it, and the closed part of each leg.
#[derive(Clone, Copy)]
pub struct Fill {
    pub cells: [Cell; 32],
    pub bought: u32,
    pub sold: u32,
}

fn in_range(t: &Trade) -> bool
    ensures { result ≡ trade_in_range t.now }
{
    Effect::try_from(t.buyer_effect).is_ok()
        && Effect::try_from(t.seller_effect).is_ok()
        && is_within(t.quantity, 1, limits::CONTRACTS)
        && is_within(t.price, 1, limits::PRICE)
}

// One side's leg of a trade, before any of it is closed.
// Kept: some fields come from the trade, others from its side, so this is no From.
fn leg_on(side: Side, t: &Trade) -> Leg
    ensures { result ≡ leg_on side t.now 0 }
{
    let (account, effect) = match side {
        Side::Buy => (t.buyer, t.buyer_effect),
        Side::Sell => (t.seller, t.seller_effect),
    };
    Leg {
        account,
        series: t.series,
        side,
        effect: Effect::of_code(effect),
        quantity: t.quantity,
        closed: 0,
        price: t.price,
        state: LegState::Free,
    }
}

// Books one side's leg in the cells of a series, and answers the leg.
fn place_leg(cells: &mut [Cell; 32], side: Side, t: &Trade) -> Leg
    requires account { RowNumber 32 (account_on side t.now) }
    requires small { Below cells.old 300_000 }
    requires few { t.now.quantity ≤ 100_000 }
    ensures leg { result ≡ leg_on side t.now (closed_on side t.now cells.old) }
    ensures after { cells.new ≡ placed_on side t.now cells.old }
{
    let leg = leg_on(side, t);
    let closed = place(
        cells,
        leg.account as usize - 1,
        side,
        leg.effect,
        leg.quantity,
    );
    Leg { closed, ..leg }
}

// Books both legs in the cells of a series, the buyer's first, and answers them.
fn place_legs(cells: &mut [Cell; 32], t: &Trade) -> (Leg, Leg)
    requires buyer { RowNumber 32 t.now.buyer }
    requires seller { RowNumber 32 t.now.seller }
    requires small { Below cells.old 100_000 }
    requires few { t.now.quantity ≤ 100_000 }
    ensures legs { result ≡ (buyer_leg t.now (fill_in cells.old t.now).bought, seller_leg t.now (fill_in cells.old t.now).sold) }
    ensures after { cells.new ≡ (fill_in cells.old t.now).cells }
{
    (
        place_leg(cells, Side::Buy, t),
        place_leg(cells, Side::Sell, t),
    )
}

// Books both legs in a copy of the series' cells.
fn fill_of(book: &Ledger, t: &Trade) -> Fill
    requires buyer { has_account book.now.state t.now.buyer ≡ true }
    requires seller { has_account book.now.state t.now.seller ≡ true }
    requires listed { has_series book.now.state t.now.series ≡ true }
    requires range { trade_in_range t.now ≡ true }
    ensures { result ≡ fill_of book.now.state t.now }
{
    // Kept: by place, since of a row by number the search doesn't find how few contracts its cells have.
    let mut cells = book.state.cells(t.series as usize - 1);
    let (bought, sold) = place_legs(&mut cells, t);
    Fill {
        cells,
        bought: bought.closed,
        sold: sold.closed,
    }
}

// Why a trade is turned back, if it is: the first check that fails.
pub fn check_trade(book: &Ledger, t: &Trade) -> Result<(), Refusal>
    ensures { result ≡ checked (trade_checks book.now.state t.now) }
{
    if !in_range(t) {
        return Err(Refusal::OutOfRange);
    }
    if !book.state.has_account(t.buyer) || !book.state.has_account(t.seller) {
        return Err(Refusal::NoAccount);
    }
    if !book.state.has_series(t.series) {
        return Err(Refusal::NoSeries);
    }
    if book.state.expired(t.series) {
        return Err(Refusal::Expired);
    }
    if !book.state.trading {
        return Err(Refusal::TradingClosed);
    }
    if book.state.legs.room() < 2 {
        return Err(Refusal::Full);
    }
    if total_longs(&fill_of(book, t).cells) > u64::from(limits::CONTRACTS) {
        return Err(Refusal::TooMany);
    }
    Ok(())
}

// Books both legs, and answers the first one's number.
// Kept: `Facts` is asked; of a `&mut Ledger` the goal `invariant_of-book` does not close without the input stage.
pub fn book_trade(book: &mut State, t: &Trade) -> u32
    requires sound { Facts book.old }
    requires buyer { has_account book.old t.now.buyer ≡ true }
    requires seller { has_account book.old t.now.seller ≡ true }
    requires listed { has_series book.old t.now.series ≡ true }
    requires range { trade_in_range t.now ≡ true }
    requires room { book.old.legs.count + 2 ≤ 256 }
    ensures number { result ≡ book.old.legs.count + 1 }
    ensures after { book.new ≡ traded book.old t.now }
{
    let (bought, sold) = place_legs(&mut book.series.rows[t.series as usize - 1].cells, t);
    let number = book.legs.push(bought);
    book.legs.push(sold);
    number
}
