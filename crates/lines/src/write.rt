// Writing input lines and filled lines.
ghost use Rattle.std.specs.Prelude.{◌≡◌, [], ◌++◌, decimal, Some, Decides};
ghost use Rattle.std.specs.List.{AllByRecursion};
ghost use Rattle.lines.specs.Kinds.{arity, kinds_of, Short};
ghost use Rattle.lines.specs.Lines.{before_feed, fields_text, answer_text, faulty, faulty_line, input_line, filled_line, InputLine, FilledLine};
ghost use Rattle.lines.specs.Texts.{text_of, cut, WrittenAs};

use super::kinds::{Sort, fields_of, kinds_of};
use super::numerals::push_numbers;
use super::text::Text;
use draws::Reply;

// A number of an archive line has at most 8 digits.
const LIMIT: u32 = 100_000_000;

// The reply to a faulty input line, by the length of its longest start that begins a line.
fn faulty_reply(length: u32) -> Reply
    ensures { result ≡ faulty length }
{
    Reply {
        number: 2,
        result: length,
    }
}

// Appends ` : `, the reply's number, blank, its result and line feed. Byte by byte is faster than to copy so few.
fn push_answer(text: &mut Text, reply: Reply)
    ensures { text_of text.new ≡ cut (text_of text.old ++ answer_text reply.number reply.result) }
{
    text.push(b' ');
    text.push(b':');
    text.push(b' ');
    text.push_number(u64::from(reply.number));
    text.push(b' ');
    text.push_number(u64::from(reply.result));
    text.push(b'\n');
}

// A line without its last byte.
fn before_feed(line: &[u8]) -> &[u8]
    ensures { result.now ≡ before_feed line.now }
{
    match line {
        [before @ .., _] => before,
        [] => line,
    }
}

// Makes the text `start` and then the reply.
fn fill_after(text: &mut Text, start: &[u8], reply: Reply)
    ensures { text_of text.new ≡ cut (start.now ++ answer_text reply.number reply.result) }
{
    text.clear();
    text.push_all(start);
    push_answer(text, reply);
}

/// Makes the text the filled line of an input line: its bytes up to the line feed, and then the reply. Of what is longer
/// than a text, the first 170 bytes.
pub fn fill(text: &mut Text, line: &[u8], reply: Reply)
    ensures { text_of text.new ≡ cut (before_feed line.now ++ answer_text reply.number reply.result) }
{
    fill_after(text, before_feed(line), reply);
}

// The kind of a faulty input line.
fn faulty_kind() -> &'static [u8]
    ensures { result.now ≡ decimal 99 }
{
    b"99"
}

/// Makes the text the filled line of a faulty input line, by the length of its longest start that begins a line: kind 99
/// with reply 2.
pub fn fill_faulty(text: &mut Text, length: u32)
    ensures { text_of text.new ≡ cut (faulty_line length) }
{
    fill_after(text, faulty_kind(), faulty_reply(length));
}

// The kind and its numbers.
fn start_text(kind: u8, numbers: &[u32]) -> Text
    ensures { text_of result ≡ cut (decimal kind ++ fields_text numbers.now) }
{
    let mut text = Text::new();
    text.push_number(u64::from(kind));
    push_numbers(&mut text, numbers);
    text
}

// The text of an input line of a kind with these numbers.
pub(crate) fn input_text(kind: u8, numbers: &[u32]) -> Text
    ensures { text_of result ≡ cut (input_line kind numbers.now) }
{
    let mut text = start_text(kind, numbers);
    text.push(b'\n');
    text
}

// The text of a filled line of a kind with these numbers.
pub(crate) fn filled_text(kind: u8, numbers: &[u32], reply: Reply) -> Text
    ensures { text_of result ≡ cut (filled_line kind numbers.now reply.number reply.result) }
{
    let mut text = start_text(kind, numbers);
    push_answer(&mut text, reply);
    text
}

// Whether each number has at most 8 digits.
fn are_short(numbers: &[u32]) -> bool
    ensures { Decides result (AllByRecursion (Short 8) numbers.now) }
{
    numbers.iter().all(|n| *n < LIMIT)
}

// Whether the reply's number and its result have at most 8 digits.
fn is_short(reply: Reply) -> bool
    ensures { Decides result (Short 8 reply.number × Short 8 reply.result) }
{
    reply.number < LIMIT && reply.result < LIMIT
}

// Whether lines of the sort have the kind, with so many fields.
fn is_known(sort: Sort, kind: u8, fields: usize) -> bool
    ensures { Decides result (arity (kinds_of sort) kind ≡ Some fields) }
{
    fields_of(kinds_of(sort), kind) == Some(fields)
}

/// The input line of a kind with these numbers; none where there is no such line.
pub fn write_input_numbers(kind: u8, fields: &[u32]) -> Option<Text>
    ensures { WrittenAs result (InputLine kind fields.now) }
{
    if !is_known(Sort::Input, kind, fields.len()) || !are_short(fields) {
        return None;
    }
    Some(input_text(kind, fields))
}

/// The filled line of a kind with these numbers and that reply; none where there is no such line.
pub fn write_numbers(kind: u8, fields: &[u32], reply: Reply) -> Option<Text>
    ensures { WrittenAs result (FilledLine kind fields.now reply.number reply.result) }
{
    if !is_known(Sort::Filled, kind, fields.len()) || !are_short(fields) || !is_short(reply) {
        return None;
    }
    Some(filled_text(kind, fields, reply))
}

/// The filled line of a faulty input line, by the length of its longest start that begins a line; none where that length
/// has more than 8 digits.
pub fn write_faulty(length: u32) -> Option<Text>
    ensures { WrittenAs result (FilledLine 99 [] 2 length) }
{
    write_numbers(99, &[], faulty_reply(length))
}
