ghost use Rattle.std.specs.Prelude.{◌≡◌, ◌+◌, ◌-◌, ◌<◌, ◌≤◌};
ghost use Rattle.ledger.specs.Tables.{new_account, new_series, opening, cells_of, with_cells, empty_table, RowNumber, row_of, in_use, one_more, leg_rebooked, leg_stepped};
ghost use Rattle.ledger.specs.Lookups.{has};

use crate::state::*;
use positions::{AccountType, Cell, Criterion, Leg, LegEvent, Right};

const NO_CONTRACT: Contract = Contract {
    right: Right::Call,
    strike: 0,
    expiry: 0,
};

impl State {
    // A book as it opens.
    pub fn opening(o: &Opening) -> State
        ensures { result ≡ opening o.now }
    {
        let Opening {
            number,
            day,
            size,
            block,
        } = *o;
        State {
            terms: Terms {
                number,
                size,
                block,
            },
            day,
            previous: 0,
            stage: Stage::Input,
            trading: true,
            fixing: None,
            house: House {
                calls: Criterion::Amount(1),
                puts: Criterion::Amount(1),
            },
            accounts: Table::empty(Account::new(0, AccountType::House)),
            series: Table::empty(Series::new(NO_CONTRACT)),
            legs: Table::empty(Leg::empty()),
            requests: Table::empty(Request::default()),
        }
    }

    // The cells of the series at a place.
    // Kept: the place, as `cells_of` and `with_cells` have it; a public function takes what it took.
    pub fn cells(&self, at: usize) -> [Cell; 32]
        requires { at < 32 }
        ensures { result ≡ cells_of self.now at }
    {
        self.series.rows[at].cells
    }

    // Replaces them.
    // Kept: the place, as `cells_of` and `with_cells` have it; a public function takes what it took.
    pub fn put_cells(&mut self, at: usize, cells: [Cell; 32])
        requires { at < 32 }
        ensures { self.new ≡ with_cells self.old at cells }
    {
        self.series.rows[at].cells = cells;
    }
}

impl Account {
    // An account with no collateral, under the house's criteria.
    pub fn new(participant: u32, account_type: AccountType) -> Account
        ensures { result ≡ new_account participant account_type }
    {
        Account {
            participant,
            account_type,
            collateral: 0,
            calls: None,
            puts: None,
        }
    }
}

impl Series {
    // A series in which no account has a position.
    pub fn new(contract: Contract) -> Series
        ensures { result ≡ new_series contract }
    {
        Series {
            contract,
            cells: [Cell::empty(); 32],
        }
    }
}

impl<T: Copy, const N: usize> Table<T, N> {
    // A table with no row in use, and that row at each place.
    pub fn empty(row: T) -> Table<T, N>
        ensures { result ≡ empty_table N row }
    {
        Table {
            rows: [row; N],
            count: 0,
        }
    }

    // Whether there is a row of that number.
    pub fn has(&self, n: u32) -> bool
        ensures { result ≡ has self.now n }
    {
        (1..=self.count).contains(&n)
    }

    // The row of a number.
    // Kept: rows are numbered from 1, and this is where the number becomes a place.
    pub fn row(&self, n: u32) -> &T
        requires { RowNumber N n }
        ensures { (d : T) → result.now ≡ row_of self.now n d }
    {
        &self.rows[n as usize - 1]
    }

    // The rows in use.
    pub fn in_use(&self) -> &[T]
        requires { self.now.count ≤ N }
        ensures { result.now ≡ in_use self.now }
    {
        &self.rows[..self.count as usize]
    }

    // How many rows are not in use.
    pub fn room(&self) -> u32
        requires { N ≤ 4_294_967_295 }
        ensures { result ≡ N - self.now.count }
    {
        (N as u32).saturating_sub(self.count)
    }

    // One row more; its number.
    pub fn push(&mut self, row: T) -> u32
        requires { (self.old.count < N) × (N ≤ 4_294_967_295) }
        ensures number { result ≡ self.old.count + 1 }
        ensures after { self.new ≡ one_more self.old row }
    {
        self.rows[self.count as usize] = row;
        self.count += 1;
        self.count
    }
}

impl Legs {
    // Books the leg at a place anew in another account.
    // Kept: the place, as `leg_rebooked` has it; a public function takes what it took.
    pub fn rebook(&mut self, at: usize, account: u32, closed: u32)
        requires { at < 256 }
        ensures { self.new ≡ leg_rebooked self.old at account closed }
    {
        self.rows[at].rebook(account, closed);
    }

    // Lets the leg at a place take an event.
    // Kept: the place, as `leg_stepped` has it; a public function takes what it took.
    pub fn step(&mut self, at: usize, event: LegEvent)
        requires { at < 256 }
        ensures { self.new ≡ leg_stepped self.old at event }
    {
        self.rows[at].step(event);
    }
}
