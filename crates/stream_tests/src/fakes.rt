use std::alloc::Global;
use std::io;
use std::io::{ErrorKind, Read, Write};

// Takes at most `most` bytes a call. When it holds `cut` bytes it fails once with `kind`, and would take more afterwards;
// it fails once at its flush number `bad_flush`, too.
#[derive(Drop)]
pub struct Choppy {
    pub got: Vec<u8>,
    pub most: usize,
    pub cut: Option<usize>,
    pub kind: ErrorKind,
    pub flushes: usize,
    pub bad_flush: usize,
}

impl Choppy {
    // A writer that never fails.
    pub fn new(alloc: Global, most: usize) -> Choppy {
        Choppy {
            got: Vec::new(alloc),
            most,
            cut: None,
            kind: ErrorKind::BrokenPipe,
            flushes: 0,
            bad_flush: 0,
        }
    }
}

impl Write for Choppy {
    fn write(&mut self, buf: &[u8]) -> io::Result<usize> {
        let mut room = self.most;
        if let Some(cut) = self.cut {
            if cut <= self.got.len() {
                self.cut = None;
                return Err(io::Error::from(self.kind));
            }
            room = room.min(cut - self.got.len());
        }
        let n = room.min(buf.len());
        self.got.extend_from_slice(&buf[..n])?;
        Ok(n)
    }

    fn flush(&mut self) -> io::Result<()> {
        self.flushes = self.flushes.saturating_add(1);
        if self.flushes == self.bad_flush {
            return Err(io::Error::from(self.kind));
        }
        Ok(())
    }
}

// Gives its text, at most `most` bytes a call. Behind its first `cut` bytes it fails once with `kind`, and would give the
// rest afterwards.
#[derive(Drop)]
pub struct Flaky<'a> {
    pub text: &'a [u8],
    pub most: usize,
    pub cut: Option<usize>,
    pub kind: ErrorKind,
    pub reads: usize,
}

impl<'a> Flaky<'a> {
    // A reader that never fails.
    pub fn new(text: &'a [u8], most: usize) -> Flaky<'a> {
        Flaky {
            text,
            most,
            cut: None,
            kind: ErrorKind::BrokenPipe,
            reads: 0,
        }
    }
}

impl<'a> Read for Flaky<'a> {
    fn read(&mut self, buf: &mut [u8]) -> io::Result<usize> {
        let mut most = self.most;
        if let Some(cut) = self.cut {
            if cut == 0 {
                self.cut = None;
                return Err(io::Error::from(self.kind));
            }
            most = most.min(cut);
        }
        self.reads = self.reads.saturating_add(1);
        let n = most.min(self.text.len()).min(buf.len());
        let (given, rest) = self.text.split_at(n);
        buf[..n].copy_from_slice(given);
        self.text = rest;
        self.cut = self.cut.map(|cut| cut.saturating_sub(n));
        Ok(n)
    }
}
