ghost use Rattle.std.specs.Prelude.{◌≡◌};
ghost use Rattle.ledger.specs.Replies.{reply_of};

use draws::Reply;

// Why a call is turned back.
#[derive(Clone, Copy, Debug, PartialEq, Eq)]
pub enum Refusal {
    PassMisfit,
    OutOfRange,
    NoAccount,
    NoSeries,
    NoLeg,
    NoRequest,
    Expired,
    TradingClosed,
    WrongAccount,
    LegHeld,
    LegFree,
    NotExpiring,
    ListedAlready,
    NoFixingPrice,
    DayNotLater,
    DrawsShort(u32),
    StatementShort(u32),
    Full,
    TooFew,
    TooMany,
}

impl From<Refusal> for Reply {
    ghost from_gives = { λ refusal reply. reply ≡ reply_of refusal };

    fn from(refusal: Refusal) -> Reply {
        let (number, result) = match refusal {
            Refusal::PassMisfit => (1, 0),
            Refusal::OutOfRange => (3, 0),
            Refusal::NoAccount => (4, 0),
            Refusal::NoSeries => (5, 0),
            Refusal::NoLeg | Refusal::NoRequest => (6, 0),
            Refusal::Expired => (7, 0),
            Refusal::TradingClosed => (8, 0),
            Refusal::WrongAccount => (9, 0),
            Refusal::LegHeld | Refusal::LegFree => (10, 0),
            Refusal::NotExpiring => (12, 0),
            Refusal::ListedAlready => (13, 0),
            Refusal::NoFixingPrice => (14, 0),
            Refusal::DayNotLater => (15, 0),
            Refusal::DrawsShort(needed) => (16, needed),
            Refusal::StatementShort(needed) => (17, needed),
            Refusal::Full => (18, 0),
            Refusal::TooFew => (19, 0),
            Refusal::TooMany => (20, 0),
        };
        Reply { number, result }
    }
}
