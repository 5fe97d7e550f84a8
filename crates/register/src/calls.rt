use book::Pass;
use ledger::{Opening, PositionTransfer, Refusal, Trade};

/// A call of the input stage, with its fields.
// Kept: codes stay the archive's numbers, since a number that is no code is a call to be turned back.
#[derive(Clone, Copy, Debug, PartialEq, Eq)]
pub enum InputCall {
    AddAccount {
        participant: u32,
        code: u32,
    },
    ListSeries {
        right: u32,
        strike: u32,
        expiry: u32,
    },
    BookTrade(Trade),
    TransferTrade {
        leg: u32,
        account: u32,
    },
    GiveUpLeg {
        leg: u32,
        participant: u32,
    },
    TakeUpLeg {
        leg: u32,
        answer: u32,
        account: u32,
    },
    TransferPosition(PositionTransfer),
}

/// A call on requests, criteria, the fixing price or collateral, in the same stage.
// Kept: codes stay the archive's numbers, as in `InputCall`.
#[derive(Clone, Copy, Debug, PartialEq, Eq)]
pub enum ExerciseCall {
    RequestExercise {
        account: u32,
        series: u32,
        quantity: u32,
    },
    RejectRequest {
        request: u32,
    },
    SetCriterion {
        account: u32,
        right: u32,
        form: u32,
        value: u32,
    },
    DenyExercise {
        account: u32,
        series: u32,
        quantity: u32,
    },
    FixPrice {
        price: u32,
    },
    LodgeShares {
        account: u32,
        shares: u32,
    },
    WithdrawShares {
        account: u32,
        shares: u32,
    },
    CloseTrading,
}

/// A call of a book that is open. A second opening is one too, and is always turned back.
#[derive(Clone, Copy, Debug, PartialEq, Eq)]
pub enum Call {
    Open(Opening),
    OfInput(InputCall),
    OfExercise(ExerciseCall),
    CutOff,
    Assign,
    GiveStatement,
    BeginDay(u32),
}

/// What a call answers, with the pass that is good after it.
#[derive(Drop)]
pub struct Done {
    pub pass: Pass,
    pub reply: Result<u32, Refusal>,
}
