ghost use Rattle.std.specs.Prelude.{◌≡◌, ◌*◌, ◌≤◌, ◌==◌};
ghost use Rattle.settlement.specs.Lines.{role_code, method_code, takes, line};

use positions::Right;

// What a line's contracts were: exercised, or assigned.
#[derive(Clone, Copy, Debug, PartialEq, Eq)]
pub enum Role {
    Exerciser,
    Assignee,
}

// How they are settled: covered by shares lodged, or otherwise.
#[derive(Clone, Copy, Debug, PartialEq, Eq)]
pub enum Method {
    Covered,
    Other,
}

// One line of the statement.
#[derive(Clone, Copy, Debug, PartialEq, Eq)]
pub struct Line {
    pub series: u32,
    pub account: u32,
    pub role: Role,
    pub method: Method,
    pub contracts: u32,
    pub shares_received: u64,
    pub shares_delivered: u64,
    pub money_paid: u64,
    pub money_received: u64,
    pub settlement_day: u32,
}

// What the lines of one series share.
// Kept: no ghost field for `size`: laws and definitions are of terms of any size, and would be said of fewer.
#[derive(Clone, Copy, Debug, PartialEq, Eq)]
pub struct SeriesTerms {
    pub series: u32,
    pub right: Right,
    pub strike: u32,
    pub size: u32,
    pub settlement_day: u32,
}

impl From<Role> for u64 {
    ghost from_gives = { λ role code. code ≡ role_code role };

    fn from(role: Role) -> u64 {
        match role {
            Role::Exerciser => 1,
            Role::Assignee => 2,
        }
    }
}

impl From<Method> for u64 {
    ghost from_gives = { λ method code. code ≡ method_code method };

    fn from(method: Method) -> u64 {
        match method {
            Method::Covered => 1,
            Method::Other => 2,
        }
    }
}

impl Line {
    // Whether it is of no contracts.
    pub fn is_empty(&self) -> bool
        ensures { result ≡ (self.now.contracts == 0) }
    {
        self.contracts == 0
    }
}

impl SeriesTerms {
    // Whether an account in that role takes the shares and pays for them.
    fn takes(&self, role: Role) -> bool
        ensures { result ≡ takes self.now.right role }
    {
        matches!(
            (self.right, role),
            (Right::Call, Role::Exerciser) | (Right::Put, Role::Assignee)
        )
    }

    // The shares of so many contracts.
    fn shares(&self, contracts: u32) -> u64
        ensures { result ≡ contracts * self.now.size }
    {
        u64::from(contracts) * u64::from(self.size)
    }

    // The line of so many contracts of an account in that role.
    // Kept: facts on the size, as `SeriesTerms` says.
    pub fn line_for(&self, account: u32, role: Role, method: Method, contracts: u32) -> Line
        requires { (contracts ≤ 100_000) × (self.now.size ≤ 10_000) }
        ensures { result ≡ line self.now account role method contracts }
    {
        let shares = self.shares(contracts);
        let money = shares * u64::from(self.strike);
        let mut line = Line {
            series: self.series,
            account,
            role,
            method,
            contracts,
            shares_received: 0,
            shares_delivered: 0,
            money_paid: 0,
            money_received: 0,
            settlement_day: self.settlement_day,
        };
        if self.takes(role) {
            line.shares_received = shares;
            line.money_paid = money;
        } else {
            line.shares_delivered = shares;
            line.money_received = money;
        }
        line
    }
}
