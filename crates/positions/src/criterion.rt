ghost use Rattle.std.specs.Prelude.{◌≡◌};
ghost use Rattle.positions.specs.Criteria.{meets, criterion_of_form};

use crate::kinds::Right;

// How far in the money a series must be to be exercised at its expiry without a request: by hundredths of a percent of
// the strike, or by an amount.
#[derive(Clone, Copy, Debug, PartialEq, Eq)]
pub enum Criterion {
    Percent(u32),
    Amount(u32),
}

impl Criterion {
    // The criterion of a form that is 1 or 2.
    // Kept: total, as the definition is; `from` of two bare numbers would not say which is the form.
    pub fn of_form(form: u32, value: u32) -> Criterion
        ensures { result ≡ criterion_of_form form value }
    {
        if form == 1 {
            Criterion::Percent(value)
        } else {
            Criterion::Amount(value)
        }
    }

    /// Whether a series of that strike meets the criterion at that fixing price: by the price less the strike for a call, by
    /// the strike less the price for a put.
    pub fn meets(self, right: Right, strike: u32, price: u32) -> bool
        ensures { result ≡ meets self right strike price }
    {
        // In 128 bits, since a value times a strike may not fit 64 bits with a sign.
        let (strike, price) = (i128::from(strike), i128::from(price));
        match (self, right) {
            (Criterion::Percent(value), Right::Call)
                if (price - strike) * 10_000 >= i128::from(value) * strike => true,
            (Criterion::Percent(value), Right::Put)
                if (strike - price) * 10_000 >= i128::from(value) * strike => true,
            (Criterion::Amount(value), Right::Call) if price - strike >= i128::from(value) => true,
            (Criterion::Amount(value), Right::Put) if strike - price >= i128::from(value) => true,
            _ => false,
        }
    }
}
