ghost use Rattle.std.specs.Prelude.{◌≡◌, Some, false};

use crate::input::Input;
use std::io;
use std::io::Read;
use std::marker::Model;

/// Bytes in memory. A read of them never fails.
#[derive(Drop)]
pub struct Text<'a> {
    bytes: &'a [u8],
    reads: u64,
}

impl<'a> Model for Text<'a> {
    ghost use Rattle.text_core.specs.Streams.{Text as Seen};

    ghost Value = { Seen };

    ghost view = { λ t. record { left = t.bytes.now; reads = t.reads } };
}

impl<'a> Text<'a> {
    /// These bytes, of which none is read yet.
    pub fn new(bytes: &'a [u8]) -> Self
        ensures { result ≡ record { left = bytes.now; reads = 0 } }
    {
        Text { bytes, reads: 0 }
    }
}

impl Read for Text<'_> {
    ghost remaining = { λ t. Some t.left };

    fn read(&mut self, buffer: &mut [u8]) -> io::Result<usize> {
        self.bytes.read(buffer)
    }
}

impl Input for Text<'_> {
    ghost reads = { λ t. t.reads };

    ghost failed = { λ _. false };

    fn read_noted(&mut self, buffer: &mut [u8]) -> io::Result<usize> {
        let result = self.bytes.read(buffer);
        if matches!(result, Ok(1..)) {
            self.reads = self.reads.saturating_add(1);
        }
        result
    }
}
