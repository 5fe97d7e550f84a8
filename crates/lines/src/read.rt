// Reading input lines and filled lines.
ghost use Rattle.std.specs.Prelude.{◌≡◌, ◌-◌, ◌≤◌, min, [], map, length, take, MatchResult};
ghost use Rattle.lines.specs.Kinds.{kinds, filled_kinds};
ghost use Rattle.lines.specs.Grammar.{Writes, StartRead, Done, Stuck, Lines, feed, answer};
ghost use Rattle.lines.specs.Lines.{IsInput, IsFilled, LongestStart};
ghost use Rattle.lines.specs.Reads.{ReadsInput, ReadsFilled};

use super::kinds::Sort;
use super::line::{Filled, Line, line_of};
use super::scan::{Head, read_answer, read_feed, read_start};
use super::text::LONGEST;

/// Bytes that are no line of the sort read, by the length of their longest start that begins one.
#[derive(Clone, Copy, PartialEq, Eq, Debug)]
pub struct Faulty {
    pub start: u32,
}

impl Faulty {
    // The fault in a line where so many bytes were left.
    // Kept: it is made of two things, so this is no From; `left` is a length, as the fault is.
    pub(crate) fn of(line: &[u8], left: usize) -> Faulty
        ensures { result.start ≡ min (length line.now - left) 170 }
    {
        Faulty {
            start: line.len().saturating_sub(left).min(LONGEST) as u32,
        }
    }
}

// The kind of an input line; its fields come to the front of `fields`.
fn scan_input<'a>(line: &'a [u8], fields: &mut [&'a [u8]; 7]) -> Result<Head<'a>, usize>
    ensures { MatchResult result (λ h. StartRead kinds line.now h.kind (map (λ d. d.now) (take h.fields fields.new)) h.rest.now × Done (Writes feed) h.rest.now []) (λ left. Stuck (Lines kinds feed) line.now left) }
{
    let head = read_start(line, Sort::Input, fields)?;
    read_feed(head.rest)?;
    Ok(head)
}

/// Reads an input line, up to and with its line feed: its kind, with its fields as parts of it. Any other bytes are
/// faulty, and `start` is how many of them begin some input line, at most 66.
pub fn read_input<'a>(line: &'a [u8]) -> Result<Line<'a>, Faulty>
    ensures { MatchResult result (λ l. ReadsInput line.now l) (λ f. LongestStart IsInput line.now f.start × (f.start ≤ 66)) }
{
    let mut fields: [&'a [u8]; 7] = [&[]; 7];
    let head = scan_input(line, &mut fields).map_err(|left| Faulty::of(line, left))?;
    let Some(read) = line_of(head.kind, &fields) else {
        unreachable()
    };
    Ok(read)
}

fn scan_filled<'a>(line: &'a [u8]) -> Result<Filled<'a>, usize>
    ensures { MatchResult result (λ f. ReadsFilled line.now f) (λ left. Stuck (Lines filled_kinds answer) line.now left) }
{
    let mut fields: [&'a [u8]; 7] = [&[]; 7];
    let head = read_start(line, Sort::Filled, &mut fields)?;
    let (reply, result) = read_answer(head.rest)?;
    Ok(Filled {
        line: line_of(head.kind, &fields),
        reply,
        result,
    })
}

/// Reads a filled line, up to and with its line feed. Any other bytes are faulty, and `start` is how many of them begin
/// some filled line, at most 86.
pub fn read_filled<'a>(line: &'a [u8]) -> Result<Filled<'a>, Faulty>
    ensures { MatchResult result (λ l. ReadsFilled line.now l) (λ f. LongestStart IsFilled line.now f.start × (f.start ≤ 86)) }
{
    scan_filled(line).map_err(|left| Faulty::of(line, left))
}
