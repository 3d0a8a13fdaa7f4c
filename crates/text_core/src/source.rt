ghost use Rattle.std.specs.Prelude.{◌≡◌, false};

use crate::input::Input;
use std::io;
use std::io::Read;
use std::marker::Model;

/// Any reader, with a count of the reads that gave bytes, and a note of whether the last one failed.
#[derive(Drop)]
pub struct Source<R: Read> {
    reader: R,
    reads: u64,
    failed: bool,
}

impl<R: Read> Model for Source<R> {
    ghost use Rattle.text_core.specs.Streams.{Source as Seen};

    ghost Value = { Seen };

    ghost view = { λ s. record { left = R.remaining s.reader; reads = s.reads; failed = s.failed } };
}

impl<R: Read> Source<R> {
    /// A reader with nothing noted yet.
    pub fn new(reader: R) -> Self
        ensures { result ≡ record { left = R.remaining reader; reads = 0; failed = false } }
    {
        Source {
            reader,
            reads: 0,
            failed: false,
        }
    }

    /// The reader, as it is now.
    pub fn into_inner(self) -> R
        ensures { R.remaining result ≡ self.left }
    {
        self.reader
    }
}

impl<R: Read> Read for Source<R> {
    ghost remaining = { λ s. s.left };

    fn read(&mut self, buffer: &mut [u8]) -> io::Result<usize> {
        self.reader.read(buffer)
    }
}

impl<R: Read> Input for Source<R> {
    ghost reads = { λ s. s.reads };

    ghost failed = { λ s. s.failed };

    fn read_noted(&mut self, buffer: &mut [u8]) -> io::Result<usize> {
        let result = self.reader.read(buffer);
        if matches!(result, Ok(1..)) {
            self.reads = self.reads.saturating_add(1);
        }
        self.failed = result.is_err();
        result
    }
}
