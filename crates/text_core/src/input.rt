ghost use Rattle.std.specs.Prelude.{ℕ, ◌↔◌, Bool, IsErr, IsTrue};
ghost use Rattle.std.specs.Io.{ReadsAtMost};
ghost use Rattle.std.specs.Io.KnownBytes.{ReadConsumes};
ghost use Rattle.text_core.specs.Streams.{Counts};

use std::io;
use std::io::Read;

/// A reader that notes for each read whether it failed.
pub trait Input: Read {
    /// The number of reads noted so far that gave bytes, `u64::MAX` at most.
    ghost reads: { Self → ℕ };

    /// Whether the last read that was noted failed.
    ghost failed: { Self → Bool };

    /// Reads once, and notes it.
    fn read_noted(&mut self, buffer: &mut [u8]) -> io::Result<usize>
        ensures bound { ReadsAtMost result buffer.new }
        ensures bytes { ReadConsumes (Self.remaining self.old) (Self.remaining self.new) result buffer.new }
        ensures reads { Counts result (reads self.old) (reads self.new) }
        ensures failed { IsTrue (failed self.new) ↔ IsErr result };
}
