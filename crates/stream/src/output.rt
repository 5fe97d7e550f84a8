ghost use Rattle.std.specs.Prelude.{◌≡◌, ◌<◌, [], length, true, false, IfOk, OnOk, OnErr, is_err};
ghost use Rattle.lines.specs.Texts.{text_of};
ghost use Rattle.stream.specs.Outputs.{out_of, Puts, Fails, Sends, Stops};

use few::Few;
use lines::Text;
use std::io;
use std::io::{ErrorKind, Write};

// How many bytes can wait.
const CAPACITY: usize = 65_536;

// A writer behind a buffer. Once the writer has failed, nothing waits.
#[derive(Drop)]
pub struct Output<W: Write + Drop> {
    inner: W,
    waiting: Few<u8, CAPACITY>,
    failed: bool,
}

impl<W: Write + Drop> Output<W> {
    pub(crate) fn new(inner: W) -> Output<W>
        ensures { out_of W.contents result ≡ record { held = W.contents inner; waiting = []; failed = false } }
    {
        Output {
            inner,
            waiting: Few::new(0),
            failed: false,
        }
    }

    // An error if the writer has failed.
    pub(crate) fn check(&self) -> io::Result<()>
        ensures { is_err result ≡ (out_of W.contents self.now).failed }
    {
        if self.failed {
            return Err(io::Error::other("the output has failed"));
        }
        Ok(())
    }

    // The writer; what waits is let go.
    pub(crate) fn into_inner(self) -> W
        ensures { W.contents result ≡ (out_of W.contents self).held }
    {
        self.inner
    }

    // Notes that the writer has failed.
    fn fail(&mut self)
        ensures { out_of W.contents self.new ≡ record { held = (out_of W.contents self.old).held; waiting = []; failed = true } }
    {
        self.waiting.clear();
        self.failed = true;
    }

    // Writes some of what waits, of which the first bytes are sent already. It fails here and
    // where the writer is flushed, and nowhere else.
    fn send_some(&mut self, sent: usize) -> io::Result<usize>
        requires { sent < length (out_of W.contents self.old).waiting }
        ensures ok { IfOk result (Sends (out_of W.contents self.old) sent (out_of W.contents self.new)) }
        ensures err { OnErr result (Stops (out_of W.contents self.old) (out_of W.contents self.new)) }
    {
        'tries: for _ in 0..u64::MAX {
            match self.inner.write(&self.waiting.as_slice()[sent..]) {
                Ok(0) => {
                    self.fail();
                    return Err(io::Error::from(ErrorKind::WriteZero));
                },
                Ok(n) => return Ok(n),
                Err(e) => {
                    if e.kind() != ErrorKind::Interrupted {
                        self.fail();
                        return Err(e);
                    }
                },
            }
        }
        self.fail();
        Err(io::Error::from(ErrorKind::Interrupted))
    }

    // Writes what waits.
    fn send(&mut self) -> io::Result<()>
        ensures ok { OnOk result (Puts (out_of W.contents self.old) [] (out_of W.contents self.new)) }
        ensures sent { OnOk result ((out_of W.contents self.new).waiting ≡ []) }
        ensures err { OnErr result (Fails (out_of W.contents self.old) [] (out_of W.contents self.new)) }
    {
        let mut sent = 0;
        'writes: while sent < self.waiting.as_slice().len() {
            sent += self.send_some(sent)?;
        }
        self.waiting.clear();
        Ok(())
    }

    // Writes a text, or lets it wait.
    pub(crate) fn push(&mut self, text: &Text) -> io::Result<()>
        ensures ok { OnOk result (Puts (out_of W.contents self.old) (text_of text.now) (out_of W.contents self.new)) }
        ensures err { OnErr result (Fails (out_of W.contents self.old) (text_of text.now) (out_of W.contents self.new)) }
    {
        let bytes = text.as_bytes();
        if bytes.len() > self.waiting.room() {
            self.send()?;
        }
        self.waiting.push_all(bytes);
        Ok(())
    }

    // Has the writer hand on what it got.
    fn flush_inner(&mut self) -> io::Result<()>
        ensures ok { OnOk result (Puts (out_of W.contents self.old) [] (out_of W.contents self.new)) }
        ensures waiting { OnOk result ((out_of W.contents self.new).waiting ≡ (out_of W.contents self.old).waiting) }
        ensures err { OnErr result (Stops (out_of W.contents self.old) (out_of W.contents self.new)) }
    {
        let flushed = self.inner.flush();
        if flushed.is_err() {
            self.fail();
        }
        flushed
    }

    // Writes what waits, and has the writer hand on what it got.
    pub(crate) fn flush(&mut self) -> io::Result<()>
        ensures ok { OnOk result (Puts (out_of W.contents self.old) [] (out_of W.contents self.new)) }
        ensures sent { OnOk result ((out_of W.contents self.new).waiting ≡ []) }
        ensures err { OnErr result (Fails (out_of W.contents self.old) [] (out_of W.contents self.new)) }
    {
        self.send()?;
        self.flush_inner()
    }
}
