ghost use Rattle.std.specs.Prelude.{◌≡◌, ◌<◌, true, false, IsErr, OnOk, OnErr};
ghost use Rattle.std.specs.Io.{ReadsAtMost};
ghost use Rattle.std.specs.Io.KnownBytes.{ReadConsumes};
ghost use Rattle.stream.specs.Inputs.{in_of};

use std::io;
use std::io::{ErrorKind, Read};

/// A reader of input. Once it has failed, nothing more is read of it.
#[derive(Drop)]
pub struct Input<R: Read + Drop> {
    reader: R,
    // How often it may still be read, by which every loop over reads ends: from 2^64 - 1 down, more than any input takes.
    // At its end the input counts as failed.
    reads_left: u64,
    failed: bool,
}

impl<R: Read + Drop> Input<R> {
    /// An input of which nothing is read yet.
    pub fn new(reader: R) -> Input<R>
        ensures { in_of R.remaining result ≡ record { left = R.remaining reader; failed = false } }
    {
        Input {
            reader,
            reads_left: u64::MAX,
            failed: false,
        }
    }

    // Reads the next bytes: none only at the end, or where they have no room.
    pub(crate) fn read(&mut self, buf: &mut [u8]) -> io::Result<usize>
        ensures bound { ReadsAtMost result buf.new }
        ensures bytes { ReadConsumes (in_of R.remaining self.old).left (in_of R.remaining self.new).left result buf.new }
        ensures able { OnOk result ((in_of R.remaining self.new).failed ≡ false) }
        ensures failed { OnErr result ((in_of R.remaining self.new).failed ≡ true) }
        ensures silent { (in_of R.remaining self.old).failed ≡ true → IsErr result × (in_of R.remaining self.new ≡ in_of R.remaining self.old) }
        ensures falls { OnOk result (self.new.reads_left < self.old.reads_left) }
    {
        if self.failed {
            return Err(io::Error::other("the input has failed"));
        }
        'tries: while self.reads_left > 0 {
            self.reads_left -= 1;
            match self.reader.read(buf) {
                Ok(n) => return Ok(n),
                Err(e) => {
                    if e.kind() != ErrorKind::Interrupted {
                        self.failed = true;
                        return Err(e);
                    }
                },
            }
        }
        self.failed = true;
        Err(io::Error::from(ErrorKind::Interrupted))
    }
}
