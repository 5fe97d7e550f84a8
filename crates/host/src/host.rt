ghost use Rattle.std.specs.Prelude.{◌≡◌, ℕ, ◌<◌, ◌≤◌, List, [], replicate, None, IsSomeAnd};
ghost use Rattle.std.specs.List.{AllByRecursion};
ghost use Rattle.draws.specs.Replies.{replied};
ghost use Rattle.ledger.specs.Replies.{reply_of};
ghost use Rattle.register.specs.declared.calls.Call.TheVariants.{Open};
ghost use Rattle.register.specs.Register.{Brief};
ghost use Rattle.lines.specs.Kinds.{Short};
ghost use Rattle.lines.specs.Lines.{statement_line, IsInput, LongestStart};
ghost use Rattle.lines.specs.Reads.{ReadsInput};
ghost use Rattle.lines.specs.Texts.{cut, text_of};
ghost use Rattle.host.specs.Numbers.{unread_of};
ghost use Rattle.host.specs.Places.{empty_line, numbers_at};
ghost use Rattle.host.specs.Steps.{start_step, make_step, instruction_step};
ghost use Rattle.host.specs.Hosts.{shown, statements_after, Answers};

use crate::desk::{idle, make, reply_of};
use crate::instruction::{Instruction, instruction_of};
use crate::places::Places;
use crate::unread::Unread;
use book::{Book, InputPass, Pass};
use ledger::Refusal;
use lines::{Line, Text, fill, fill_faulty, read_input};
use register::{Call, Done, Opening};

/// A book with the pass that is good now (without a pass no book is open), the tape numbers that no assignment has
/// read, and the places of a statement. The pass leaves its place while a call is made.
// Kept: Pass goes by value into each call; Option<(Book, Pass)> moved 40 KB with it, and stood at 0.05 of plain Rust.
#[derive(Drop)]
pub struct Host {
    book: Book,
    pass: Option<Pass>,
    unread: Unread,
    places: Places,
}

// How many statement lines follow an instruction with that answer.
fn statements_after(instruction: &Instruction, answer: Result<u32, Refusal>) -> usize
    ensures { result ≡ statements_after instruction.now (replied reply_of answer) }
{
    match (instruction, answer) {
        (Instruction::OfBook(Call::GiveStatement), Ok(count)) => count as usize,
        _ => 0,
    }
}

impl Host {
    /// No book, no tape number, and nothing in the places.
    pub fn new() -> Host
        ensures desk { (shown result).desk ≡ None }
        ensures unread { (shown result).unread ≡ [] }
        ensures places { (shown result).places ≡ replicate 256 empty_line }
    {
        Host {
            book: idle(),
            pass: None,
            unread: Unread::new(),
            places: Places::new(),
        }
    }

    // Opens a book: puts it in the place, with its first pass. Not inlined, so that no other line's answer has the 40 KB
    // of a new book in its frame.
    #[inline(never)]
    fn open(&mut self, o: &Opening) -> Result<u32, Refusal>
        requires { self.old.pass ≡ None }
        ensures reply { replied reply_of result ≡ (start_step (unread_of self.old.unread) self.old.places.lines (Open o.now)).reply }
        ensures brief { Brief (replied reply_of result) }
        ensures after { shown self.new ≡ (start_step (unread_of self.old.unread) self.old.places.lines (Open o.now)).after }
    {
        let (book, pass) = register::open(o)?;
        self.book = book;
        self.pass = Some(Pass::ForInput(pass));
        Ok(0)
    }

    // Makes a call where no book is open: only an opening can be accepted.
    fn start(&mut self, call: &Call) -> Result<u32, Refusal>
        requires { self.old.pass ≡ None }
        ensures reply { replied reply_of result ≡ (start_step (unread_of self.old.unread) self.old.places.lines call.now).reply }
        ensures brief { Brief (replied reply_of result) }
        ensures after { shown self.new ≡ (start_step (unread_of self.old.unread) self.old.places.lines call.now).after }
    {
        match call {
            Call::Open(o) => self.open(o),
            _ => Err(Refusal::PassMisfit),
        }
    }

    // Makes a call.
    fn make(&mut self, call: &Call) -> Result<u32, Refusal>
        ensures reply { replied reply_of result ≡ (make_step (shown self.old) call.now).reply }
        ensures brief { Brief (replied reply_of result) }
        ensures after { shown self.new ≡ (make_step (shown self.old) call.now).after }
    {
        let Some(pass) = self.pass.take() else {
            return self.start(call);
        };
        let Done { pass, reply } = make(
            &mut self.book,
            pass,
            &mut self.unread,
            &mut self.places,
            call,
        );
        self.pass = Some(pass);
        reply
    }

    // Makes a call, or takes a tape number.
    fn take(&mut self, instruction: &Instruction) -> Result<u32, Refusal>
        ensures reply { replied reply_of result ≡ (instruction_step (shown self.old) instruction.now).reply }
        ensures brief { Brief (replied reply_of result) }
        ensures after { shown self.new ≡ (instruction_step (shown self.old) instruction.now).after }
    {
        match instruction {
            Instruction::OfBook(call) => self.make(call),
            Instruction::TapeNumber(number) => self.unread.push(*number),
        }
    }

    // Answers a line that was read as an input line.
    #[tactic(auto, using(crate::proofs::Following::few_follow))]
    fn answer_read(&mut self, read: &Line<'_>, line: &[u8], text: &mut Text) -> usize
        requires { ReadsInput line.now read.now }
        ensures whole { Answers (shown self.old) line.now (text_of text.new) result (shown self.new) }
        ensures begun { (w : List ℕ) → cut w ≡ line.now → Answers (shown self.old) w (text_of text.new) result (shown self.new) }
        ensures few { result ≤ 256 }
    {
        let instruction = instruction_of(read);
        let answer = self.take(&instruction);
        fill(text, line, reply_of(answer));
        statements_after(&instruction, answer)
    }

    // Answers bytes that are no input line, by the length of their longest start that begins one.
    fn answer_faulty(&self, start: u32, line: &[u8], text: &mut Text) -> usize
        requires { LongestStart IsInput line.now start × (start ≤ 66) }
        ensures whole { Answers (shown self.now) line.now (text_of text.new) result (shown self.now) }
        ensures begun { (w : List ℕ) → cut w ≡ line.now → Answers (shown self.now) w (text_of text.new) result (shown self.now) }
        ensures few { result ≤ 256 }
    {
        fill_faulty(text, start);
        0
    }

    /// Answers an input line, or whatever bytes stand for one: the text becomes the filled line, and the result says how
    /// many statement lines follow it, which stand in the places from the first on. A line of which only as many bytes
    /// are given as a text holds has the same answer.
    pub fn answer_into(&mut self, line: &[u8], text: &mut Text) -> usize
        ensures whole { Answers (shown self.old) line.now (text_of text.new) result (shown self.new) }
        ensures begun { (w : List ℕ) → cut w ≡ line.now → Answers (shown self.old) w (text_of text.new) result (shown self.new) }
        ensures few { result ≤ 256 }
    {
        match read_input(line) {
            Ok(read) => self.answer_read(&read, line, text),
            Err(faulty) => self.answer_faulty(faulty.start, line, text),
        }
    }

    /// The statement line at a place, counted from 0; none where there is no such place.
    pub fn statement(&self, i: usize) -> Option<Text>
        ensures here { i < 256 → IsSomeAnd result (λ t. text_of t ≡ statement_line (numbers_at (shown self.now).places i)) }
        ensures short { AllByRecursion (Short 16) (numbers_at (shown self.now).places i) }
        ensures past { 256 ≤ i → result ≡ None }
    {
        self.places.text_at(i)
    }
}
