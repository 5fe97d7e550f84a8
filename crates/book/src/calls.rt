ghost use Rattle.std.specs.Prelude.{◌≡◌};
ghost use Rattle.draws.specs.Replies.{replied};
ghost use Rattle.ledger.specs.Replies.{reply_of};
ghost use Rattle.book.specs.Calls.{account_call, series_call, trade_call, transfer_call, give_up_call, take_up_call, position_call};
ghost use Rattle.book.specs.Opened.{opened, open_refusal, open_call};
ghost use Rattle.book.specs.Stages.{result_unless, told};

use crate::book::Book;
use crate::pass::InputPass;
use ledger::{Ledger, Opening, PositionTransfer, Refusal, State, Trade};

// Kept: codes come as they were called in; a parameter of the enum would ask callers to have judged them.
// Kept: fields of a call: a struct of two to four numbers would be made at each call and opened in each check.
// Kept: an accepted call answers the archive's result, 0 where it makes nothing: so the register treats all alike.
impl Book {
    /// Opens a book, with its first pass.
    ///
    /// # Errors
    /// `OutOfRange`.
    pub fn open(o: &Opening) -> Result<(Book, InputPass), Refusal>
        ensures reply { opened result ≡ open_call o.now }
        ensures number { replied reply_of (told (λ b. 0) result) ≡ replied reply_of (result_unless (open_refusal o.now) 0) }
    {
        dealing::check_open(o)?;
        let state = State::opening(o);
        let book = Book {
            ledger: Ledger { state },
        };
        let Opening { number, day, .. } = *o;
        Ok((book, InputPass { number, day }))
    }

    /// Adds an account of a participant (1 to 99) and a type by its code (1 to 4), and answers its number.
    ///
    /// # Errors
    /// `PassMisfit`, `OutOfRange`, `Full`: the first that holds, as for each call below.
    pub fn account(&mut self, pass: &InputPass, participant: u32, code: u32) -> Result<u32, Refusal>
        ensures reply { result ≡ (account_call self.old.state pass.now participant code).reply }
        ensures number { replied reply_of result ≡ replied reply_of (account_call self.old.state pass.now participant code).reply }
        ensures after { self.new.state ≡ (account_call self.old.state pass.now participant code).state }
    {
        self.admit(pass)?;
        dealing::check_account(&self.ledger.state, participant, code)?;
        Ok(dealing::add_account(&mut self.ledger.state, participant, code))
    }

    /// Lists a series, of calls (1) or puts (2), with its strike in thousandths of a dollar and the day of its expiry, and
    /// answers its number.
    ///
    /// # Errors
    /// `PassMisfit`, `OutOfRange`, `ListedAlready`, `Full`.
    pub fn series(
        &mut self,
        pass: &InputPass,
        right: u32,
        strike: u32,
        expiry: u32,
    ) -> Result<u32, Refusal>
        ensures reply { result ≡ (series_call self.old.state pass.now right strike expiry).reply }
        ensures number { replied reply_of result ≡ replied reply_of (series_call self.old.state pass.now right strike expiry).reply }
        ensures after { self.new.state ≡ (series_call self.old.state pass.now right strike expiry).state }
    {
        self.admit(pass)?;
        dealing::check_series(&self.ledger.state, right, strike, expiry)?;
        Ok(dealing::add_series(&mut self.ledger.state, right, strike, expiry))
    }

    /// Books a trade, and answers the number of its first leg, the buyer's.
    ///
    /// # Errors
    /// `PassMisfit`, `OutOfRange`, `NoAccount`, `NoSeries`, `Expired`, `TradingClosed`, `Full`, `TooMany`.
    pub fn trade(&mut self, pass: &InputPass, t: &Trade) -> Result<u32, Refusal>
        ensures reply { result ≡ (trade_call self.old.state pass.now t.now).reply }
        ensures number { replied reply_of result ≡ replied reply_of (trade_call self.old.state pass.now t.now).reply }
        ensures after { self.new.state ≡ (trade_call self.old.state pass.now t.now).state }
    {
        self.admit(pass)?;
        dealing::check_trade(&self.ledger, t)?;
        Ok(dealing::book_trade(&mut self.ledger.state, t))
    }

    /// Transfers a free leg to another account of its participant.
    ///
    /// # Errors
    /// `PassMisfit`, `NoAccount`, `NoLeg`, `WrongAccount`, `LegHeld`, `TooFew`, `TooMany`.
    pub fn trade_transfer(
        &mut self,
        pass: &InputPass,
        leg: u32,
        account: u32,
    ) -> Result<u32, Refusal>
        ensures reply { result ≡ (transfer_call self.old.state pass.now leg account).reply }
        ensures number { replied reply_of result ≡ replied reply_of (transfer_call self.old.state pass.now leg account).reply }
        ensures after { self.new.state ≡ (transfer_call self.old.state pass.now leg account).state }
    {
        self.admit(pass)?;
        transfers::check_transfer(&self.ledger, leg, account)?;
        transfers::transfer(&mut self.ledger.state, leg, account);
        Ok(0)
    }

    /// Holds a free leg for another participant, who need not have an account.
    ///
    /// # Errors
    /// `PassMisfit`, `OutOfRange`, `NoLeg`, `WrongAccount`, `LegHeld`.
    // Kept: admit, check, effect; one function with two closures is longer than the three lines.
    pub fn give_up(&mut self, pass: &InputPass, leg: u32, participant: u32) -> Result<u32, Refusal>
        ensures reply { result ≡ (give_up_call self.old.state pass.now leg participant).reply }
        ensures number { replied reply_of result ≡ replied reply_of (give_up_call self.old.state pass.now leg participant).reply }
        ensures after { self.new.state ≡ (give_up_call self.old.state pass.now leg participant).state }
    {
        self.admit(pass)?;
        transfers::check_give_up(&self.ledger, leg, participant)?;
        transfers::give_up(&mut self.ledger, leg, participant);
        Ok(0)
    }

    /// Confirms a held leg for an account of the participant it is held for (answer 1), or rejects it (answer 2, with
    /// account 0).
    ///
    /// # Errors
    /// `PassMisfit`, `OutOfRange`, `NoAccount`, `NoLeg`, `LegFree`, `WrongAccount`, `TooFew`, `TooMany`.
    pub fn take_up(
        &mut self,
        pass: &InputPass,
        leg: u32,
        answer: u32,
        account: u32,
    ) -> Result<u32, Refusal>
        ensures reply { result ≡ (take_up_call self.old.state pass.now leg answer account).reply }
        ensures number { replied reply_of result ≡ replied reply_of (take_up_call self.old.state pass.now leg answer account).reply }
        ensures after { self.new.state ≡ (take_up_call self.old.state pass.now leg answer account).state }
    {
        self.admit(pass)?;
        transfers::check_take_up(&self.ledger, leg, answer, account)?;
        transfers::take_up(&mut self.ledger.state, leg, answer, account);
        Ok(0)
    }

    /// Moves longs (side 1) or shorts (side 2) of a series to another account of the participant.
    ///
    /// # Errors
    /// `PassMisfit`, `OutOfRange`, `NoAccount`, `NoSeries`, `Expired`, `WrongAccount`, `TooFew`.
    // Kept: as in `give_up`.
    pub fn position_transfer(
        &mut self,
        pass: &InputPass,
        t: &PositionTransfer,
    ) -> Result<u32, Refusal>
        ensures reply { result ≡ (position_call self.old.state pass.now t.now).reply }
        ensures number { replied reply_of result ≡ replied reply_of (position_call self.old.state pass.now t.now).reply }
        ensures after { self.new.state ≡ (position_call self.old.state pass.now t.now).state }
    {
        self.admit(pass)?;
        transfers::check_position(&self.ledger, t)?;
        transfers::move_position(&mut self.ledger.state, t);
        Ok(0)
    }
}
