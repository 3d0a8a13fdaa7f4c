ghost use Rattle.std.specs.Prelude.{◌<◌, ◌↔◌, Bool, IfErr, IsTrue, OnErr, OnOk, length, take};
ghost use Rattle.std.specs.Io.{WritesAtMost};
ghost use Rattle.std.specs.Io.KnownBytes.{Appends, WriteAppends};
ghost use Rattle.text_core.specs.Streams.{TookNone};

use std::io;
use std::io::Write;

/// A writer that notes for each write whether it failed or took no byte.
pub trait Output: Write {
    /// Whether the last write that was noted failed or took no byte.
    ghost stuck: { Self → Bool };

    /// Writes once, and notes it.
    fn write_noted(&mut self, bytes: &[u8]) -> io::Result<usize>
        requires { 0 < length bytes.now }
        ensures bound { WritesAtMost result bytes.now }
        ensures bytes { WriteAppends (Self.contents self.old) (Self.contents self.new) result bytes.now }
        ensures stuck { IsTrue (stuck self.new) ↔ TookNone result };
}

/// Writes bytes, in as many writes as it takes. Where one of them fails or takes no byte, the error is the number of bytes that were taken.
pub fn write_out<W: Output>(writer: &mut W, bytes: &[u8]) -> Result<(), usize>
    ensures ok { OnOk result (Appends (W.contents writer.old) (W.contents writer.new) bytes.now) }
    ensures less { IfErr result (λ taken. taken < length bytes.now) }
    ensures err { IfErr result (λ taken. Appends (W.contents writer.old) (W.contents writer.new) (take taken bytes.now)) }
    ensures stuck { OnErr result (IsTrue (W.stuck writer.new)) }
{
    let mut taken = 0;
    while taken < bytes.len() {
        match writer.write_noted(&bytes[taken..]) {
            Ok(0) | Err(_) => return Err(taken),
            Ok(count) => taken += count,
        }
    }
    Ok(())
}
