ghost use Rattle.std.specs.Prelude.{◌≡◌};
ghost use Rattle.draws.specs.Replies.{replied};
ghost use Rattle.ledger.specs.Replies.{reply_of};
ghost use Rattle.book.specs.Calls.{request_call, rejection_call, denial_call, criterion_call, fixing_call, lodge_call, withdrawal_call, closing_call};

use crate::book::Book;
use crate::pass::InputPass;
use ledger::Refusal;

// Kept: codes come as they were called in; a parameter of the enum would ask callers to have judged them.
// Kept: fields of a call: a struct of two to four numbers would be made at each call and opened in each check.
// Kept: an accepted call answers the archive's result, 0 where it makes nothing: so the register treats all alike.
impl Book {
    /// Asks for the exercise of so many contracts of a series, and answers the request's number.
    ///
    /// # Errors
    /// `PassMisfit`, `OutOfRange`, `NoAccount`, `NoSeries`, `Expired`, `Full`: the first that holds, as for each call
    /// below.
    pub fn request(
        &mut self,
        pass: &InputPass,
        account: u32,
        series: u32,
        quantity: u32,
    ) -> Result<u32, Refusal>
        ensures reply { result ≡ (request_call self.old.state pass.now account series quantity).reply }
        ensures number { replied reply_of result ≡ replied reply_of (request_call self.old.state pass.now account series quantity).reply }
        ensures after { self.new.state ≡ (request_call self.old.state pass.now account series quantity).state }
    {
        self.admit(pass)?;
        exercise::check_request(&self.ledger, account, series, quantity)?;
        Ok(exercise::add_request(&mut self.ledger.state, account, series, quantity))
    }

    /// Rejects a pending request.
    ///
    /// # Errors
    /// `PassMisfit`, `NoRequest`.
    // Kept: as in `give_up`.
    pub fn reject_request(&mut self, pass: &InputPass, request: u32) -> Result<u32, Refusal>
        ensures reply { result ≡ (rejection_call self.old.state pass.now request).reply }
        ensures number { replied reply_of result ≡ replied reply_of (rejection_call self.old.state pass.now request).reply }
        ensures after { self.new.state ≡ (rejection_call self.old.state pass.now request).state }
    {
        self.admit(pass)?;
        exercise::check_rejection(&self.ledger, request)?;
        exercise::reject_request(&mut self.ledger.state, request);
        Ok(0)
    }

    /// Denies so many contracts of a series that expires today to the exercise without a request, in place of those
    /// denied before.
    ///
    /// # Errors
    /// `PassMisfit`, `OutOfRange`, `NoAccount`, `NoSeries`, `Expired`, `NotExpiring`.
    pub fn deny(
        &mut self,
        pass: &InputPass,
        account: u32,
        series: u32,
        quantity: u32,
    ) -> Result<u32, Refusal>
        ensures reply { result ≡ (denial_call self.old.state pass.now account series quantity).reply }
        ensures number { replied reply_of result ≡ replied reply_of (denial_call self.old.state pass.now account series quantity).reply }
        ensures after { self.new.state ≡ (denial_call self.old.state pass.now account series quantity).state }
    {
        self.admit(pass)?;
        exercise::check_denial(&self.ledger, account, series, quantity)?;
        exercise::deny(&mut self.ledger, account, series, quantity);
        Ok(0)
    }

    /// Sets the criterion of an account, or of the house (account 0), for calls (1) or for puts (2): form 1 with
    /// hundredths of a percent of the strike, form 2 with thousandths of a dollar, form 0 with 0 for the house's again.
    ///
    /// # Errors
    /// `PassMisfit`, `OutOfRange`, `NoAccount`, `TradingClosed`.
    pub fn criterion(
        &mut self,
        pass: &InputPass,
        account: u32,
        right: u32,
        form: u32,
        value: u32,
    ) -> Result<u32, Refusal>
        ensures reply { result ≡ (criterion_call self.old.state pass.now account right form value).reply }
        ensures number { replied reply_of result ≡ replied reply_of (criterion_call self.old.state pass.now account right form value).reply }
        ensures after { self.new.state ≡ (criterion_call self.old.state pass.now account right form value).state }
    {
        self.admit(pass)?;
        exercise::check_criterion(&self.ledger.state, account, right, form, value)?;
        exercise::set_criterion(&mut self.ledger.state, account, right, form, value);
        Ok(0)
    }

    /// Gives the fixing price, in thousandths of a dollar, in place of one given before.
    ///
    /// # Errors
    /// `PassMisfit`, `OutOfRange`.
    pub fn fixing_price(&mut self, pass: &InputPass, price: u32) -> Result<u32, Refusal>
        ensures reply { result ≡ (fixing_call self.old.state pass.now price).reply }
        ensures number { replied reply_of result ≡ replied reply_of (fixing_call self.old.state pass.now price).reply }
        ensures after { self.new.state ≡ (fixing_call self.old.state pass.now price).state }
    {
        self.admit(pass)?;
        exercise::check_fixing(price)?;
        exercise::fix_price(&mut self.ledger.state, price);
        Ok(0)
    }

    /// Adds shares to an account's collateral.
    ///
    /// # Errors
    /// `PassMisfit`, `OutOfRange`, `NoAccount`, `TooMany`.
    // Kept: as in `give_up`.
    pub fn lodge(&mut self, pass: &InputPass, account: u32, shares: u32) -> Result<u32, Refusal>
        ensures reply { result ≡ (lodge_call self.old.state pass.now account shares).reply }
        ensures number { replied reply_of result ≡ replied reply_of (lodge_call self.old.state pass.now account shares).reply }
        ensures after { self.new.state ≡ (lodge_call self.old.state pass.now account shares).state }
    {
        self.admit(pass)?;
        exercise::check_lodge(&self.ledger, account, shares)?;
        exercise::lodge(&mut self.ledger, account, shares);
        Ok(0)
    }

    /// Takes shares from an account's collateral.
    ///
    /// # Errors
    /// `PassMisfit`, `OutOfRange`, `NoAccount`, `TooFew`.
    // Kept: as in `give_up`.
    pub fn withdraw(&mut self, pass: &InputPass, account: u32, shares: u32) -> Result<u32, Refusal>
        ensures reply { result ≡ (withdrawal_call self.old.state pass.now account shares).reply }
        ensures number { replied reply_of result ≡ replied reply_of (withdrawal_call self.old.state pass.now account shares).reply }
        ensures after { self.new.state ≡ (withdrawal_call self.old.state pass.now account shares).state }
    {
        self.admit(pass)?;
        exercise::check_withdrawal(&self.ledger, account, shares)?;
        exercise::withdraw(&mut self.ledger, account, shares);
        Ok(0)
    }

    /// Ends trades and criteria for the day; it may be done twice.
    ///
    /// # Errors
    /// `PassMisfit`.
    pub fn close_trading(&mut self, pass: &InputPass) -> Result<u32, Refusal>
        ensures reply { result ≡ (closing_call self.old.state pass.now).reply }
        ensures number { replied reply_of result ≡ replied reply_of (closing_call self.old.state pass.now).reply }
        ensures after { self.new.state ≡ (closing_call self.old.state pass.now).state }
    {
        self.admit(pass)?;
        exercise::close_trading(&mut self.ledger.state);
        Ok(0)
    }
}
