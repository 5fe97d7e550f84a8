// The text of one allocation: the lines shorts, exercised, block and tape, in this order.
ghost use Rattle.std.specs.Prelude.{◌≡◌, ◌≤◌, false, length, IfSome, IfOk, IfErr, vec_len, MatchResult, ◌≢◌, slice_index};
ghost use Rattle.std.specs.Str.Parse.{ParsesUnsigned};
ghost use Rattle.allocation_text.specs.Lines.{silent};

use std::alloc::{AllocError, AllocFailed, Global};
use std::error::Error;
use std::fmt;

// The most numbers of a line.
const NUMBERS: usize = 1_024;

#[derive(Drop)]
pub struct Order {
    pub shorts: Vec<u32>,
    pub exercised: u32,
    pub block: u32,
    pub tape: Vec<u32>,
}

// What is wrong with a line.
#[derive(Clone, Copy, Debug)]
pub enum Fault<'a> {
    // Another line is expected here, the one that begins with this word.
    Expected(&'a str),
    // No number from 0 to 4,294,967,295.
    NotANumber(&'a str),
    // More or fewer numbers than the one that this line has.
    NotOneNumber(&'a str),
    TooManyNumbers,
    AfterTheEnd,
    NoMemory,
}

impl<'a> From<AllocError> for Fault<'a> {
    fn from(_: AllocError) -> Fault<'a> {
        Fault::NoMemory
    }
}

impl<'a, T: Drop> From<AllocFailed<T>> for Fault<'a> {
    fn from(_: AllocFailed<T>) -> Fault<'a> {
        Fault::NoMemory
    }
}

impl<'a> fmt::Display for Fault<'a> {
    fn fmt<W: fmt::Write>(&self, f: &mut fmt::Formatter<W>) -> fmt::Result {
        match self {
            Fault::Expected(word) => write!(f, "expected the line '{word}'"),
            Fault::NotANumber(text) => write!(f, "'{text}' is no number from 0 to 4,294,967,295"),
            Fault::NotOneNumber(word) => write!(f, "'{word}' takes one number"),
            Fault::TooManyNumbers => write!(f, "more than 1,024 numbers"),
            Fault::AfterTheEnd => write!(f, "nothing may follow the line 'tape'"),
            Fault::NoMemory => write!(f, "no memory"),
        }
    }
}

// The first line that is wrong; one that is missing is counted behind the last.
#[derive(Clone, Copy, Debug)]
pub struct BadLine<'a> {
    pub line: usize,
    pub fault: Fault<'a>,
}

impl<'a> fmt::Display for BadLine<'a> {
    fn fmt<W: fmt::Write>(&self, f: &mut fmt::Formatter<W>) -> fmt::Result {
        let line = self.line;
        let fault = &self.fault;
        write!(f, "line {line}: {fault}")
    }
}

impl<'a> Error for BadLine<'a> {}

fn number(text: &str) -> Result<u32, Fault<'_>>
    ensures { ParsesUnsigned 32 10 text.now result }
{
    text.parse::<u32>().map_err(|_| Fault::NotANumber(text))
}

// The numbers behind the word.
fn numbers<'a>(heap: Global, line: &'a str, word: &'a str) -> Result<Vec<u32>, Fault<'a>>
    ensures { IfOk result (λ v. vec_len v ≤ 1_024) }
{
    let mut words = line.split_whitespace();
    if words.next() != Some(word) {
        return Err(Fault::Expected(word));
    }
    let mut found = Vec::new(heap);
    for text in words {
        if found.len() >= NUMBERS {
            return Err(Fault::TooManyNumbers);
        }
        found.push(number(text)?)?;
    }
    Ok(found)
}

// The only number of a list.
fn single<'a>(found: &[u32], word: &'a str) -> Result<u32, Fault<'a>>
    ensures { MatchResult result (λ n. (length found.now ≡ 1) × (n ≡ slice_index found.now 0)) (λ _. (length found.now ≢ 1)) }
{
    match found {
        [n] => Ok(*n),
        _ => Err(Fault::NotOneNumber(word)),
    }
}

// The only number behind the word.
fn number_behind<'a>(heap: Global, line: &'a str, word: &'a str) -> Result<u32, Fault<'a>> {
    let found = numbers(heap, line, word)?;
    single(found.as_slice(), word)
}

// The lines from here on, and how many were read.
// Kept: counted here, since the number of a line that is missing is wanted too.
#[derive(Drop)]
struct Lines<'a> {
    rest: std::str::Lines<'a>,
    read: usize,
}

// Whether a line is passed over: it is empty, or begins with #.
fn says_nothing(line: &str) -> bool
    ensures { result ≡ silent line.now }
{
    line.is_empty() || line.starts_with('#')
}

impl<'a> Lines<'a> {
    fn new(text: &'a str) -> Lines<'a> {
        Lines {
            rest: text.lines(),
            read: 0,
        }
    }

    // The next line that is not passed over.
    fn next_line(&mut self) -> Option<&'a str>
        ensures { IfSome result (λ line. silent line.now ≡ false) }
    {
        for line in &mut self.rest {
            self.read = self.read.saturating_add(1);
            let line = line.trim();
            if !says_nothing(line) {
                return Some(line);
            }
        }
        self.read = self.read.saturating_add(1);
        None
    }

    // What is read of the next line; a missing line is read as an empty one.
    fn read_next<T: Drop, F: FnOnce(&'a str) -> Result<T, Fault<'a>>>(
        &mut self,
        of_line: F,
    ) -> Result<T, BadLine<'a>>
        requires { F.IsAlwaysCallable of_line }
        ensures found { IfOk result (λ found. (text : _) × F.post of_line text (Ok found)) }
        ensures line { IfErr result (λ wrong. wrong.line ≡ self.new.read) }
    {
        let text = self.next_line().unwrap_or("");
        let line = self.read;
        of_line(text).map_err(|fault| BadLine { line, fault })
    }
}

impl Order {
    pub fn parse<'a>(heap: Global, text: &'a str) -> Result<Order, BadLine<'a>>
        ensures { IfOk result (λ o. (vec_len o.shorts ≤ 1_024) × (vec_len o.tape ≤ 1_024)) }
    {
        let mut lines = Lines::new(text);
        let shorts = lines.read_next(|line| numbers(heap, line, "shorts"))?;
        let exercised = lines.read_next(|line| number_behind(heap, line, "exercised"))?;
        let block = lines.read_next(|line| number_behind(heap, line, "block"))?;
        let tape = lines.read_next(|line| numbers(heap, line, "tape"))?;
        if lines.next_line().is_some() {
            return Err(BadLine {
                line: lines.read,
                fault: Fault::AfterTheEnd,
            });
        }
        Ok(Order {
            shorts,
            exercised,
            block,
            tape,
        })
    }
}
