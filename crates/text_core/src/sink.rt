ghost use Rattle.std.specs.Prelude.{◌≡◌, false};

use crate::output::Output;
use std::io;
use std::io::Write;
use std::marker::Model;

/// Any writer, with a note of whether the last write failed or took no byte.
#[derive(Drop)]
pub struct Sink<W: Write> {
    writer: W,
    stuck: bool,
}

impl<W: Write> Model for Sink<W> {
    ghost use Rattle.text_core.specs.Streams.{Sink as Seen};

    ghost Value = { Seen };

    ghost view = { λ s. record { taken = W.contents s.writer; stuck = s.stuck } };
}

impl<W: Write> Sink<W> {
    /// A writer with nothing noted yet.
    pub fn new(writer: W) -> Self
        ensures { result ≡ record { taken = W.contents writer; stuck = false } }
    {
        Sink {
            writer,
            stuck: false,
        }
    }

    /// The writer, as it is now.
    pub fn into_inner(self) -> W
        ensures { W.contents result ≡ self.taken }
    {
        self.writer
    }
}

impl<W: Write> Write for Sink<W> {
    ghost contents = { λ s. s.taken };

    fn write(&mut self, bytes: &[u8]) -> io::Result<usize> {
        self.writer.write(bytes)
    }

    fn flush(&mut self) -> io::Result<()> {
        self.writer.flush()
    }
}

impl<W: Write> Output for Sink<W> {
    ghost stuck = { λ s. s.stuck };

    fn write_noted(&mut self, bytes: &[u8]) -> io::Result<usize> {
        let result = self.writer.write(bytes);
        self.stuck = !matches!(result, Ok(1..));
        result
    }
}
