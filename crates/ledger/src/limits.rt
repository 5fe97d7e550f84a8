// The most that a number of a call may be.

pub const BOOK_NUMBER: u32 = 9_999;

pub const DAY: u32 = 99_999;
// Shares of a contract.
pub const SIZE: u32 = 10_000;
// Contracts that one draw assigns.
pub const BLOCK: u32 = 1_000;

pub const PARTICIPANT: u32 = 99;
// A price, a strike or a criterion's amount, in thousandths of a dollar.
pub const PRICE: u32 = 1_000_000;
// A criterion's hundredths of a percent.
pub const PERCENT: u32 = 10_000;
// Contracts of a call, and longs of a series.
pub const CONTRACTS: u32 = 100_000;
// Shares of a call, and shares lodged for an account.
pub const SHARES: u32 = 99_999_999;
