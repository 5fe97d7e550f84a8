// Reading a line and writing it again.
ghost use Rattle.std.specs.Prelude.{◌≤◌, MatchResult};
ghost use Rattle.lines.specs.Lines.{IsInput, IsFilled, LongestStart};
ghost use Rattle.lines.specs.Rewrites.{IsLine, longest_line, Rewrites};

use super::kinds::Sort;
use super::numbers::Numbers;
use super::read::{Faulty, read_filled, read_input};
use super::scan::number;
use super::text::Text;
use super::write::{filled_text, input_text};
use draws::Reply;

/// What a line was read as, its kind and numbers, and its text written from these. The numbers of a filled line end with
/// reply and result; kind 99 is the filled line of a faulty input line.
#[derive(Clone, Copy)]
pub struct Rewritten {
    pub kind: u8,
    pub numbers: Numbers,
    pub text: Text,
}

fn rewrite_input(line: &[u8]) -> Result<Rewritten, Faulty>
    ensures { MatchResult result (λ w. Rewrites Sort.Input line.now w) (λ f. LongestStart IsInput line.now f.start × (f.start ≤ 66)) }
{
    let read = read_input(line)?;
    let kind = read.kind();
    let Some(numbers) = read.numbers() else {
        unreachable()
    };
    Ok(Rewritten {
        kind,
        numbers,
        text: input_text(kind, numbers.as_slice()),
    })
}

fn rewrite_filled(line: &[u8]) -> Result<Rewritten, Faulty>
    ensures { MatchResult result (λ w. Rewrites Sort.Filled line.now w) (λ f. LongestStart IsFilled line.now f.start × (f.start ≤ 86)) }
{
    let read = read_filled(line)?;
    let kind = read.kind();
    let (Some(fields), Some(reply), Some(result)) = (
        read.numbers(),
        number(read.reply),
        number(read.result),
    ) else {
        unreachable()
    };
    let answer = Reply {
        number: reply,
        result,
    };
    let text = filled_text(kind, fields.as_slice(), answer);
    let mut numbers = fields;
    numbers.push(reply);
    numbers.push(result);
    Ok(Rewritten {
        kind,
        numbers,
        text,
    })
}

/// Reads a line of a sort as a kind and numbers, and writes it again from these, to the same bytes. Any other bytes are
/// faulty, by the length of their longest start that begins a line of the sort.
pub fn rewrite(sort: Sort, line: &[u8]) -> Result<Rewritten, Faulty>
    ensures { MatchResult result (λ w. Rewrites sort line.now w) (λ f. LongestStart (IsLine sort) line.now f.start × (f.start ≤ longest_line sort)) }
{
    match sort {
        Sort::Input => rewrite_input(line),
        Sort::Filled => rewrite_filled(line),
    }
}
