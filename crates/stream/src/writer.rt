ghost use Rattle.std.specs.Prelude.{◌≡◌, ◌≤◌, ◌⊎◌, ◌||◌, ℕ, List, [], ◌++◌, true, OnOk, OnErr, IsErr, is_err};
ghost use Rattle.std.specs.Io.KnownBytes.{Consumes, IsAtEnd};
ghost use Rattle.lines.specs.Texts.{cut};
ghost use Rattle.host.specs.Hosts.{shown};
ghost use Rattle.stream.specs.Outputs.{out_of, Puts, Fails};
ghost use Rattle.stream.specs.Inputs.{in_of};
ghost use Rattle.stream.specs.Streams.{statements_text, Shows, Adds, AddsFront, Streams, Takes, Breaks, Ends, StreamLaws};
ghost use Rattle.stream.specs.Writers.{seen};

use crate::input::Input;
use crate::line_end::line_end;
use crate::output::Output;
use host::Host;
use lines::Text;
use std::io;
use std::io::{Read, Write};

/// A day book's host between its input, which comes in pieces of any sizes, and the archive that is written of it. Of a
/// line that has not ended the first bytes are kept, as many as a text holds: more than any input line has. Once the
/// writer has failed, every call that takes or ends is an error and changes nothing.
#[derive(Drop)]
pub struct ArchiveWriter<W: Write + Drop> {
    host: Host,
    filled: Text,
    begun: Text,
    output: Output<W>,
}

// Writes so many statement lines, from the first place on. Not inlined, so that no other line's answer has their texts in
// its frame.
#[inline(never)]
fn write_statements<W: Write + Drop>(
    host: &Host,
    count: usize,
    output: &mut Output<W>,
) -> io::Result<()>
    requires { count ≤ 256 }
    ensures ok { OnOk result (Puts (out_of W.contents output.old) (statements_text (shown host.now).places count) (out_of W.contents output.new)) }
    ensures err { OnErr result (Fails (out_of W.contents output.old) (statements_text (shown host.now).places count) (out_of W.contents output.new)) }
{
    for i in 0..count {
        let Some(statement) = host.statement(i) else {
            unreachable!()
        };
        output.push(&statement)?;
    }
    Ok(())
}

impl<W: Write + Drop> ArchiveWriter<W> {
    /// No book, and no input yet.
    pub fn new(output: W) -> ArchiveWriter<W>
        ensures { Streams [] [] (W.contents output) (seen W.contents result) }
    {
        ArchiveWriter {
            host: Host::new(),
            filled: Text::new(),
            begun: Text::new(),
            output: Output::new(output),
        }
    }

    // Writes the answer to one line, which is given whole, or by as many of its first bytes as a text holds.
    fn answer(&mut self, line: &[u8]) -> io::Result<()>
        ensures ok { (w : List ℕ) → Shows line.now w → OnOk result (Adds (seen W.contents self.old) w (seen W.contents self.new)) }
        ensures err { (w : List ℕ) → Shows line.now w → OnErr result (AddsFront (seen W.contents self.old) w (seen W.contents self.new)) }
        ensures begun { (seen W.contents self.new).begun ≡ (seen W.contents self.old).begun }
        ensures able { OnOk result ((seen W.contents self.new).out.failed ≡ (seen W.contents self.old).out.failed) }
        ensures failed { OnErr result ((seen W.contents self.new).out.failed ≡ true) }
    {
        let statements = self.host.answer_into(line, &mut self.filled);
        self.output.push(&self.filled)?;
        write_statements(&self.host, statements, &mut self.output)
    }

    // Answers the line that was begun.
    fn answer_begun(&mut self) -> io::Result<()>
        ensures ok { (w : List ℕ) → (seen W.contents self.old).begun ≡ cut w → OnOk result (Adds (seen W.contents self.old) w (seen W.contents self.new)) }
        ensures err { (w : List ℕ) → (seen W.contents self.old).begun ≡ cut w → OnErr result (AddsFront (seen W.contents self.old) w (seen W.contents self.new)) }
        ensures begun { (seen W.contents self.new).begun ≡ [] }
        ensures able { OnOk result ((seen W.contents self.new).out.failed ≡ (seen W.contents self.old).out.failed) }
        ensures failed { OnErr result ((seen W.contents self.new).out.failed ≡ true) }
    {
        let line = self.begun;
        self.begun.clear();
        self.answer(line.as_bytes())
    }

    // Answers a line whose beginning may have come earlier.
    fn answer_line(&mut self, line: &[u8]) -> io::Result<()>
        ensures ok { (rest : List ℕ) → (seen W.contents self.old).begun ≡ cut rest → OnOk result (Adds (seen W.contents self.old) (rest ++ line.now) (seen W.contents self.new)) }
        ensures err { (rest : List ℕ) → (seen W.contents self.old).begun ≡ cut rest → OnErr result (AddsFront (seen W.contents self.old) (rest ++ line.now) (seen W.contents self.new)) }
        ensures begun { (seen W.contents self.new).begun ≡ [] }
        ensures able { OnOk result ((seen W.contents self.new).out.failed ≡ (seen W.contents self.old).out.failed) }
        ensures failed { OnErr result ((seen W.contents self.new).out.failed ≡ true) }
    {
        if self.begun.as_bytes().is_empty() {
            return self.answer(line);
        }
        self.begun.push_all(line);
        self.answer_begun()
    }

    // Answers each line that ends in the piece, keeps what follows the last, and flushes.
    fn take_lines(&mut self, piece: &[u8]) -> io::Result<()>
        ensures ok { OnOk result (Takes (seen W.contents self.old) piece.now (seen W.contents self.new)) }
        ensures err { OnErr result (Breaks (seen W.contents self.old) piece.now (seen W.contents self.new)) }
        ensures flushed { OnOk result ((seen W.contents self.new).out.waiting ≡ []) }
        ensures able { OnOk result ((seen W.contents self.new).out.failed ≡ (seen W.contents self.old).out.failed) }
        ensures failed { OnErr result ((seen W.contents self.new).out.failed ≡ true) }
    {
        let mut rest = piece;
        while let Some(end) = line_end(rest) {
            let (line, more) = rest.split_at(end);
            self.answer_line(line)?;
            rest = more;
        }
        self.begun.push_all(rest);
        self.output.flush()
    }

    /// Takes the next bytes of the input: the lines that end in them are answered. Without an error, their answers have
    /// gone to the writer, which was flushed, when it returns.
    #[tactic(auto, using(crate::proofs::Laws::stream_laws))]
    pub fn take(&mut self, piece: &[u8]) -> io::Result<()>
        ensures ok { OnOk result (Takes (seen W.contents self.old) piece.now (seen W.contents self.new)) }
        ensures err { OnErr result (Breaks (seen W.contents self.old) piece.now (seen W.contents self.new)) }
        ensures flushed { OnOk result ((seen W.contents self.new).out.waiting ≡ []) }

        // A call is an error exactly where the writer counts as failed, and then every later one is too.
        ensures failed { (seen W.contents self.new).out.failed ≡ is_err result }
        ensures silent { (seen W.contents self.old).out.failed ≡ true → IsErr result × (seen W.contents self.new ≡ seen W.contents self.old) }

        ensures laws { StreamLaws }
    {
        self.output.check()?;
        self.take_lines(piece)
    }

    // Answers what has not ended, if anything is left, and flushes.
    fn end_line(&mut self) -> io::Result<()>
        ensures ok { OnOk result (Ends (seen W.contents self.old) [] (seen W.contents self.new)) }
        ensures err { OnErr result (Breaks (seen W.contents self.old) [] (seen W.contents self.new)) }
        ensures flushed { OnOk result ((seen W.contents self.new).out.waiting ≡ []) }
        ensures able { OnOk result ((seen W.contents self.new).out.failed ≡ (seen W.contents self.old).out.failed) }
        ensures failed { OnErr result ((seen W.contents self.new).out.failed ≡ true) }
    {
        if self.begun.as_bytes().is_empty() {
            return self.output.flush();
        }
        self.answer_begun()?;
        self.output.flush()
    }

    /// Ends the input: a last line that has no line feed is answered. What is taken afterwards is another input, for the
    /// same book.
    #[tactic(auto, using(crate::proofs::Laws::stream_laws))]
    pub fn end(&mut self) -> io::Result<()>
        ensures ok { OnOk result (Ends (seen W.contents self.old) [] (seen W.contents self.new)) }
        ensures err { OnErr result (Breaks (seen W.contents self.old) [] (seen W.contents self.new)) }
        ensures flushed { OnOk result ((seen W.contents self.new).out.waiting ≡ []) }

        ensures failed { (seen W.contents self.new).out.failed ≡ is_err result }
        ensures silent { (seen W.contents self.old).out.failed ≡ true → IsErr result × (seen W.contents self.new ≡ seen W.contents self.old) }

        ensures laws { StreamLaws }
    {
        self.output.check()?;
        self.end_line()
    }

    /// Takes the rest of the input: reads it in pieces, and takes each before the next is read.
    #[tactic(auto, using(crate::proofs::Laws::stream_laws))]
    pub fn take_all<R: Read + Drop>(&mut self, input: &mut Input<R>) -> io::Result<()>
        ensures ok { OnOk result ((more : List ℕ) × Consumes (in_of R.remaining input.old).left (in_of R.remaining input.new).left more × IsAtEnd (in_of R.remaining input.new).left × Takes (seen W.contents self.old) more (seen W.contents self.new)) }
        ensures err { OnErr result ((more : List ℕ) × Consumes (in_of R.remaining input.old).left (in_of R.remaining input.new).left more × (Takes (seen W.contents self.old) more (seen W.contents self.new) ⊎ Breaks (seen W.contents self.old) more (seen W.contents self.new))) }

        // A call is an error exactly where the reader or the writer counts as failed; then so is every later one with them.
        ensures failed { ((seen W.contents self.new).out.failed || (in_of R.remaining input.new).failed) ≡ is_err result }
        ensures silent { ((seen W.contents self.old).out.failed || (in_of R.remaining input.old).failed) ≡ true → IsErr result × (seen W.contents self.new ≡ seen W.contents self.old) × (in_of R.remaining input.new ≡ in_of R.remaining input.old) }

        ensures laws { StreamLaws }
    {
        self.output.check()?;
        let mut buf = [0u8; 65_536];
        'pieces: loop {
            let n = input.read(&mut buf)?;
            if n == 0 {
                return Ok(());
            }
            self.take(&buf[..n])?;
        }
    }

    /// Answers a whole input: takes the rest of it, and ends.
    #[tactic(auto, using(crate::proofs::Laws::stream_laws))]
    pub fn answer_all<R: Read + Drop>(&mut self, input: &mut Input<R>) -> io::Result<()>
        ensures ok { OnOk result ((more : List ℕ) × Consumes (in_of R.remaining input.old).left (in_of R.remaining input.new).left more × IsAtEnd (in_of R.remaining input.new).left × Ends (seen W.contents self.old) more (seen W.contents self.new)) }
        ensures err { OnErr result ((more : List ℕ) × Consumes (in_of R.remaining input.old).left (in_of R.remaining input.new).left more × (Takes (seen W.contents self.old) more (seen W.contents self.new) ⊎ Breaks (seen W.contents self.old) more (seen W.contents self.new))) }

        ensures failed { ((seen W.contents self.new).out.failed || (in_of R.remaining input.new).failed) ≡ is_err result }
        ensures silent { ((seen W.contents self.old).out.failed || (in_of R.remaining input.old).failed) ≡ true → IsErr result × (seen W.contents self.new ≡ seen W.contents self.old) × (in_of R.remaining input.new ≡ in_of R.remaining input.old) }

        ensures laws { StreamLaws }
    {
        self.take_all(input)?;
        self.end()
    }

    /// The writer that has got the archive.
    pub fn into_inner(self) -> W
        ensures { W.contents result ≡ (seen W.contents self).out.held }
    {
        self.output.into_inner()
    }
}
