// Statement lines.
ghost use Rattle.std.specs.Prelude.{◌≡◌, ◌-◌, ◌≤◌, min, length, Decides, MatchResult};
ghost use Rattle.std.specs.List.{AllByRecursion};
ghost use Rattle.lines.specs.Kinds.{Short};
ghost use Rattle.lines.specs.Lines.{StatementText, IsStatement, LongestStart};
ghost use Rattle.lines.specs.Texts.{text_of, WrittenAs};
ghost use Rattle.lines.specs.Statements.{values_of, ReadsStatement};

use super::numerals::push_numbers;
use super::read::Faulty;
use super::ten::read_ten;
use super::text::Text;

// A number of a statement line has at most 16 digits.
const LIMIT: u64 = 10_000_000_000_000_000;

// Whether each number has at most 16 digits.
fn are_short(numbers: &[u64; 10]) -> bool
    ensures { Decides result (AllByRecursion (Short 16) numbers.now) }
{
    numbers.iter().all(|n| *n < LIMIT)
}

/// What one account has to give and to get in one series: contracts, shares, and money in thousandths of a dollar.
// Kept: role and method are numbers, since a line that is read may have any of 16 digits there.
#[derive(Clone, Copy, PartialEq, Eq, Debug)]
pub struct StatementLine {
    pub series: u64,
    pub account: u64,
    pub role: u64,
    pub method: u64,
    pub contracts: u64,
    pub shares_received: u64,
    pub shares_delivered: u64,
    pub money_paid: u64,
    pub money_received: u64,
    pub settlement_day: u64,
}

// In the order of the line.
impl From<StatementLine> for [u64; 10] {
    ghost from_gives = { λ line numbers. numbers ≡ values_of line };

    fn from(line: StatementLine) -> [u64; 10] {
        [
            line.series,
            line.account,
            line.role,
            line.method,
            line.contracts,
            line.shares_received,
            line.shares_delivered,
            line.money_paid,
            line.money_received,
            line.settlement_day,
        ]
    }
}

impl From<[u64; 10]> for StatementLine {
    ghost from_gives = { λ numbers line. values_of line ≡ numbers };

    fn from(numbers: [u64; 10]) -> StatementLine {
        StatementLine {
            series: numbers[0],
            account: numbers[1],
            role: numbers[2],
            method: numbers[3],
            contracts: numbers[4],
            shares_received: numbers[5],
            shares_delivered: numbers[6],
            money_paid: numbers[7],
            money_received: numbers[8],
            settlement_day: numbers[9],
        }
    }
}

/// Reads a statement line, up to and with its line feed. Any other bytes are faulty, and `start` is how many of them
/// begin some statement line, at most 170.
pub fn read_statement(line: &[u8]) -> Result<StatementLine, Faulty>
    ensures { MatchResult result (λ s. ReadsStatement line.now s) (λ f. LongestStart IsStatement line.now f.start × (f.start ≤ 170)) }
{
    let numbers = read_ten(line).map_err(
        |left|
            ensures { result.start ≡ min (length line.entry.now - left) 170 }
        { Faulty::of(line, left) },
    )?;
    Ok(StatementLine::from(numbers))
}

// The text of ten numbers that have at most 16 digits.
fn short_text(numbers: &[u64; 10]) -> Text
    requires { AllByRecursion (Short 16) numbers.now }
    ensures { StatementText numbers.now (text_of result) }
{
    let mut text = Text::new();
    text.push_number(numbers[0]);
    push_numbers(&mut text, &numbers[1..]);
    text.push(b'\n');
    text
}

/// The text of a statement line; none where a number has more than 16 digits.
pub fn write_statement(line: &StatementLine) -> Option<Text>
    ensures { WrittenAs result (StatementText (values_of line.now)) }
{
    let numbers = <[u64; 10]>::from(*line);
    if !are_short(&numbers) {
        return None;
    }
    Some(short_text(&numbers))
}
