ghost use Rattle.std.specs.Prelude.{◌≡◌, ◌<◌, ◌≤◌, None, IsSomeAnd, replicate};
ghost use Rattle.std.specs.List.{All, AllByRecursion};
ghost use Rattle.register.specs.Register.{Fits};
ghost use Rattle.lines.specs.Kinds.{Short};
ghost use Rattle.lines.specs.Lines.{statement_line};
ghost use Rattle.lines.specs.Texts.{text_of};
ghost use Rattle.lines.specs.Statements.{values_of};
ghost use Rattle.host.specs.Places.{empty_line, line_numbers, numbers_at};

use lines::{StatementLine, Text, write_statement};
use settlement::{Line, Method, Role};

// A place with nothing in it.
const NO_LINE: Line = Line {
    series: 0,
    account: 0,
    role: Role::Exerciser,
    method: Method::Covered,
    contracts: 0,
    shares_received: 0,
    shares_delivered: 0,
    money_paid: 0,
    money_received: 0,
    settlement_day: 0,
};

// The line as its numbers.
// Kept: settlement and statements know nothing of each other, and the host owns neither type, so this is no From.
fn numbers_of(line: &Line) -> StatementLine
    ensures { values_of result ≡ line_numbers line.now }
{
    StatementLine {
        series: u64::from(line.series),
        account: u64::from(line.account),
        role: u64::from(line.role),
        method: u64::from(line.method),
        contracts: u64::from(line.contracts),
        shares_received: line.shares_received,
        shares_delivered: line.shares_delivered,
        money_paid: line.money_paid,
        money_received: line.money_received,
        settlement_day: u64::from(line.settlement_day),
    }
}

// The places of a statement. Each holds a line whose numbers fit the format, so that it can be written.
#[derive(Drop)]
pub struct Places {
    pub(crate) lines: [Line; 256],
    ghost fitting: { All Fits lines },
}

impl Places {
    // Places with nothing in them.
    pub(crate) fn new() -> Places
        ensures { result.lines ≡ replicate 256 empty_line }
    {
        Places {
            lines: [NO_LINE; 256],
        }
    }

    // The text of the line at a place, counted from 0; none where there is no such place.
    #[tactic(auto, using(crate::proofs::Fitting::short_at))]
    pub(crate) fn text_at(&self, i: usize) -> Option<Text>
        ensures here { i < 256 → IsSomeAnd result (λ t. text_of t ≡ statement_line (numbers_at self.now.lines i)) }
        ensures short { AllByRecursion (Short 16) (numbers_at self.now.lines i) }
        ensures past { 256 ≤ i → result ≡ None }
    {
        let line = self.lines.get(i)?;
        let Some(text) = write_statement(&numbers_of(line)) else {
            unreachable!()
        };
        Some(text)
    }
}
