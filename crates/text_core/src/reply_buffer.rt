ghost use Rattle.std.specs.Prelude.{◌≡◌, ℕ, ◌++◌, [], ◌∷◌, List, Option, IfErr, IsTrue, OnErr, OnOk};
ghost use Rattle.std.specs.Io.KnownBytes.{Appends};
ghost use Rattle.text_core.specs.Script.{StopsIn, Answer, texts};
ghost use Rattle.text_core.specs.ReplyBuffer.{Owes, empty};
ghost use Rattle.text_core.specs.Reply.{newlines};

use crate::answer::Answer;
use crate::output::{Output, write_out};
use crate::reply::{Reply, push_reply};
use arrayvec::{ArrayString, ArrayVec};
use std::marker::Model;

/// Replies that wait to be written together, each with the number of the line that it answers.
#[derive(Drop)]
pub(crate) struct ReplyBuffer {
    text: ArrayString<4096>,
    lines: ArrayVec<u64, 4096>,
}

impl Model for ReplyBuffer {
    ghost use Rattle.text_core.specs.ReplyBuffer.{IsMarked, ReplyBuffer as Seen};

    ghost Value = { Seen };

    ghost view = { λ b. record { bytes = b.text.bytes; lines = b.lines.items } };

    ghost invariant = { λ b. IsMarked b.text.bytes b.lines.items };
}

impl ReplyBuffer {
    pub(crate) fn new() -> Self
        ensures { result ≡ empty }
    {
        ReplyBuffer {
            text: ArrayString::new(),
            lines: ArrayVec::new(),
        }
    }

    /// Puts an answer after the others. Where there is no room, the others are written first.
    pub(crate) fn post<W: Output>(
        &mut self,
        writer: &mut W,
        line: u64,
        reply: &Reply,
    ) -> Result<(), u64>
        ensures ok { OnOk result ((answers : List Answer) (first : Option (List ℕ)) →
            Owes self.old answers first (W.contents writer.old)
            → Owes self.new (answers ++ record { line = line; reply = reply.now } ∷ []) first (W.contents writer.new)) }
        // The error is the line whose reply wasn't taken whole.
        ensures err { IfErr result (λ at. (answers : List Answer) (first : Option (List ℕ)) →
            Owes self.old answers first (W.contents writer.old) → StopsIn answers first (W.contents writer.new) at) }
        ensures stuck { OnErr result (IsTrue (W.stuck writer.new)) }
    {
        // The longest reply has 160 bytes.
        if self.text.remaining_capacity() < 160 {
            self.flush(writer)?;
        }
        push_reply(&mut self.text, reply);
        self.lines.push(line);
        Ok(())
    }

    /// Puts answers after the others, one after the other.
    pub(crate) fn post_all<W: Output>(
        &mut self,
        writer: &mut W,
        more: Vec<Answer>,
    ) -> Result<(), u64>
        ensures ok { OnOk result ((answers : List Answer) (first : Option (List ℕ)) →
            Owes self.old answers first (W.contents writer.old)
            → Owes self.new (answers ++ more.items) first (W.contents writer.new)) }
        // The error is the line whose reply wasn't taken whole, of the answers that waited and of these.
        ensures err { IfErr result (λ at. (answers : List Answer) (first : Option (List ℕ)) →
            Owes self.old answers first (W.contents writer.old) → StopsIn (answers ++ more.items) first (W.contents writer.new) at) }
        ensures stuck { OnErr result (IsTrue (W.stuck writer.new)) }
    {
        for answer in more {
            let (line, reply) = answer.into_parts();
            self.post(writer, line, &reply)?;
        }
        Ok(())
    }

    /// Writes all that waits.
    pub(crate) fn flush<W: Output>(&mut self, writer: &mut W) -> Result<(), u64>
        ensures empty { OnOk result (self.new ≡ empty) }
        ensures ok { OnOk result ((answers : List Answer) (first : Option (List ℕ)) →
            Owes self.old answers first (W.contents writer.old) → Appends first (W.contents writer.new) (texts answers)) }
        // The error is the line whose reply wasn't taken whole.
        ensures err { IfErr result (λ at. (answers : List Answer) (first : Option (List ℕ)) →
            Owes self.old answers first (W.contents writer.old) → StopsIn answers first (W.contents writer.new) at) }
        ensures stuck { OnErr result (IsTrue (W.stuck writer.new)) }
    {
        let bytes = self.text.as_str().as_bytes();
        if let Err(taken) = write_out(writer, bytes) {
            let whole = newlines_in(&bytes[..taken]);
            return Err(self.lines[whole]);
        }
        self.text.clear();
        self.lines.clear();
        Ok(())
    }
}

fn newlines_in(bytes: &[u8]) -> usize
    ensures { result ≡ newlines bytes.now }
{
    bytes.iter().filter(|byte| **byte == b'\n').count()
}
