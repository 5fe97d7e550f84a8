// Kept: codes are read by `try_from`, one for each enum, since each has its variants; `of_code` is for judged codes.
ghost use Rattle.std.specs.Prelude.{◌≡◌};
ghost use Rattle.positions.specs.Kinds.{side_of_code, effect_of_code, right_of_code, type_of_code, decoded, is_net};

use std::error::Error;
use std::fmt;

// What an option gives a right to: to buy the shares, or to sell them.
#[derive(Clone, Copy, Debug, PartialEq, Eq)]
pub enum Right {
    Call,
    Put,
}

// A buy's side is the longs, a sale's the shorts.
#[derive(Clone, Copy, Debug, PartialEq, Eq)]
pub enum Side {
    Buy,
    Sell,
}

// Whether a leg opens a position or closes one.
#[derive(Clone, Copy, Debug, PartialEq, Eq)]
pub enum Effect {
    Opening,
    Closing,
}

#[derive(Clone, Copy, Debug, PartialEq, Eq)]
pub enum AccountType {
    House,
    MarketMaker,
    IndividualClient,
    OmnibusClient,
}

// A number that is the code of no such kind.
#[derive(Clone, Copy, Debug, PartialEq, Eq)]
pub struct NoCode(pub u32);

impl fmt::Display for NoCode {
    fn fmt<W: fmt::Write>(&self, f: &mut fmt::Formatter<W>) -> fmt::Result {
        write!(f, "no kind has code {}", self.0)
    }
}

impl Error for NoCode {}

impl TryFrom<u32> for Right {
    type Error = NoCode;

    ghost try_from_gives = { λ code r. r ≡ decoded 2 right_of_code code };

    fn try_from(code: u32) -> Result<Self, NoCode> {
        match code {
            1 => Ok(Right::Call),
            2 => Ok(Right::Put),
            _ => Err(NoCode(code)),
        }
    }
}

impl TryFrom<u32> for Side {
    type Error = NoCode;

    ghost try_from_gives = { λ code r. r ≡ decoded 2 side_of_code code };

    fn try_from(code: u32) -> Result<Self, NoCode> {
        match code {
            1 => Ok(Side::Buy),
            2 => Ok(Side::Sell),
            _ => Err(NoCode(code)),
        }
    }
}

impl TryFrom<u32> for Effect {
    type Error = NoCode;

    ghost try_from_gives = { λ code r. r ≡ decoded 2 effect_of_code code };

    fn try_from(code: u32) -> Result<Self, NoCode> {
        match code {
            1 => Ok(Effect::Opening),
            2 => Ok(Effect::Closing),
            _ => Err(NoCode(code)),
        }
    }
}

impl TryFrom<u32> for AccountType {
    type Error = NoCode;

    ghost try_from_gives = { λ code r. r ≡ decoded 4 type_of_code code };

    fn try_from(code: u32) -> Result<Self, NoCode> {
        match code {
            1 => Ok(AccountType::House),
            2 => Ok(AccountType::MarketMaker),
            3 => Ok(AccountType::IndividualClient),
            4 => Ok(AccountType::OmnibusClient),
            _ => Err(NoCode(code)),
        }
    }
}

impl Right {
    // The right of a code that is 1 or 2.
    // Kept: total, as the definition is; callers have judged the code by `try_from`.
    pub fn of_code(code: u32) -> Right
        ensures { result ≡ right_of_code code }
    {
        Right::try_from(code).unwrap_or(Right::Put)
    }
}

impl Side {
    // The side of a code that is 1 or 2.
    // Kept: total, as the definition is; callers have judged the code by `try_from`.
    pub fn of_code(code: u32) -> Side
        ensures { result ≡ side_of_code code }
    {
        Side::try_from(code).unwrap_or(Side::Sell)
    }
}

impl Effect {
    // The effect of a code that is 1 or 2.
    // Kept: total, as the definition is; callers have judged the code by `try_from`.
    pub fn of_code(code: u32) -> Effect
        ensures { result ≡ effect_of_code code }
    {
        Effect::try_from(code).unwrap_or(Effect::Closing)
    }
}

impl AccountType {
    // The type of a code from 1 to 4.
    // Kept: total, as the definition is; callers have judged the code by `try_from`.
    pub fn of_code(code: u32) -> AccountType
        ensures { result ≡ type_of_code code }
    {
        AccountType::try_from(code).unwrap_or(AccountType::OmnibusClient)
    }

    // Whether longs and shorts of one series are set off against one another at the cut.
    pub fn is_net(self) -> bool
        ensures { result ≡ is_net self }
    {
        self != AccountType::OmnibusClient
    }
}
