ghost use Rattle.std.specs.Prelude.{◌≡◌, ℕ, ◌+◌, ◌*◌, ◌^◌, ◌<◌, ◌≤◌, [], ◌∷◌, ◌++◌, List, Option, option_map, length, false, Some, None, IfNone, IfSome, IfErr, IfOk, IsTrue, OnErr, OnOk};
ghost use Rattle.text_core.specs.Reply.{newlines};
ghost use Rattle.std.specs.Io.KnownBytes.{Appends};
ghost use Rattle.text_core.specs.Script.{StopsIn, Answer, command_in_block, command_of_line, texts};
ghost use Rattle.text_core.specs.Runs.{IsPlayed};
ghost use Rattle.text_core.specs.ReplyBuffer.{Owes, empty};
ghost use Rattle.text_core.specs.ScriptRunner.{BeginsLine, Finishes, HasRead, PlaysOn, ReadsCommand, ReadsLine, ReadsOn, begun, block_begun, in_block, noted};
ghost use Rattle.text_core.specs.Streams.{LeavesStreams};

use crate::answer::Answers;
use crate::block::{Block, Blocks, ClientLine};
use crate::command::{BlockLine, Command};
use crate::fault::{Fault, RunError};
use crate::input::Input;
use crate::line::{read_block_line, read_line};
use crate::output::Output;
use crate::profile::Profile;
use crate::reply::Reply;
use crate::reply_buffer::ReplyBuffer;
use crate::respond::Respond;
use crate::totals::Totals;
use arrayvec::ArrayVec;
use memchr::memchr;
use state_core::ClientCall;
use std::alloc::Global;
use std::marker::Model;
use std::mem;

/// A script that is being played: its machine, the block and the line that have begun, and the replies that wait.
#[derive(Drop)]
pub(crate) struct ScriptRunner<A: Respond> {
    blocks: Blocks,
    profile: Profile,
    block: Option<Block>,
    machine: A,
    held: ArrayVec<u8, 200>,
    line: u64,
    replies: u64,
    outbox: ReplyBuffer,
}

impl<A: Respond> Model for ScriptRunner<A> {
    ghost use Rattle.std.specs.Prelude.{◌*◌, ◌<◌};
    ghost use Rattle.text_core.specs.ScriptRunner.{ScriptRunner as Seen};

    ghost Value = { Seen A };

    ghost view = { λ s. record { reading = record { profile = s.profile; block = s.block }; machine = s.machine; held = s.held.items; line = s.line; replies = s.replies; box = s.outbox } };

    ghost invariant = { λ s. (s.replies < 1001 * s.line) × A.ready s.machine };
}

impl<A: Respond> ScriptRunner<A> {
    /// A script at its first byte.
    fn new(blocks: Blocks, machine: A) -> Self
        requires { A.ready machine }
        ensures { result ≡ begun machine }
    {
        ScriptRunner {
            blocks,
            profile: Profile::Untold,
            block: None,
            machine,
            held: ArrayVec::new(),
            line: 1,
            replies: 0,
            outbox: ReplyBuffer::new(),
        }
    }

    /// Reads a whole line, and answers the command that it ends, if it ends one.
    fn take_line<W: Output>(&mut self, writer: &mut W, text: &[u8]) -> Result<(), RunError>
        requires begins { self.old.held ≡ [] }
        // So few lines that the number of their replies, at most 1,001 for each line, fits 64 bits.
        requires room { self.old.line + 1 < 2 ^ 53 }
        ensures reads { ReadsLine A.may A.asks self.old self.new text.now (W.contents writer.old) (W.contents writer.new) result }
        ensures stuck { IfErr result (λ error. error.fault ≡ Fault.Write → IsTrue (W.stuck writer.new)) }
        ensures line { OnOk result (self.new.line ≡ self.old.line + 1) }
        ensures held { OnOk result (self.new.held ≡ []) }
    {
        if let Some(block) = self.block.take() {
            return self.take_within(writer, text, block);
        }
        let line = self.line;
        match read_line(self.profile, text) {
            Ok(None) => {
                self.line = line + 1;
                Ok(())
            }
            Ok(Some(command)) => {
                self.profile = self.profile.after(&command);
                match command {
                    Command::During { zone } => self.begin(zone),
                    command => self.answer(writer, command),
                }
            }
            Err(error) => Err(RunError {
                fault: Fault::from(error),
                line,
            }),
        }
    }

    /// Begins a block at this line. The memory for its client lines and their answers is taken here.
    #[inline(never)]
    fn begin(&mut self, zone: u64) -> Result<(), RunError>
        requires room { self.old.line + 1 < 2 ^ 53 }
        requires outside { self.old.reading.block ≡ None }
        ensures ok { OnOk result (self.new ≡ block_begun zone self.old) }
        ensures same { OnErr result (self.new ≡ self.old) }
        ensures err { IfErr result (λ error. error ≡ record { fault = Fault.Memory; line = self.old.line }) }
    {
        let line = self.line;
        let Ok(block) = self.blocks.begin(line, zone) else {
            return Err(RunError {
                fault: Fault::Memory,
                line,
            });
        };
        self.block = Some(block);
        self.line = line + 1;
        Ok(())
    }

    /// Reads a whole line of a block that has begun.
    #[inline(never)]
    fn take_within<W: Output>(
        &mut self,
        writer: &mut W,
        text: &[u8],
        block: Block,
    ) -> Result<(), RunError>
        requires { BeginsLine self.old }
        ensures reads { ReadsLine A.may A.asks (in_block block self.old) self.new text.now (W.contents writer.old) (W.contents writer.new) result }
        ensures stuck { IfErr result (λ error. error.fault ≡ Fault.Write → IsTrue (W.stuck writer.new)) }
        ensures line { OnOk result (self.new.line ≡ self.old.line + 1) }
        ensures held { OnOk result (self.new.held ≡ []) }
    {
        let line = self.line;
        match read_block_line(block.zone(), text) {
            Ok(Some(BlockLine::End)) => self.answer_block(writer, block),
            Ok(Some(BlockLine::Client(call))) => self.note(block, call),
            Ok(None) => {
                self.block = Some(block);
                self.line = line + 1;
                Ok(())
            }
            Err(error) => Err(RunError {
                fault: Fault::from(error),
                line,
            }),
        }
    }

    /// Adds a client line to the block that has begun, where the block may have one more.
    fn note(&mut self, mut block: Block, call: Option<ClientCall>) -> Result<(), RunError>
        requires room { self.old.line + 1 < 2 ^ 53 }
        ensures ok { OnOk result (self.new ≡ noted block call self.old) }
        ensures few { OnOk result (length block.clients < 1000) }
        ensures same { OnErr result (self.new ≡ self.old) }
        ensures err { IfErr result (λ error. (error ≡ record { fault = Fault.Syntax; line = self.old.line }) × (1000 ≤ length block.clients)) }
    {
        let line = self.line;
        if block.is_full() {
            return Err(RunError {
                fault: Fault::Syntax,
                line,
            });
        }
        block.push(ClientLine::new(line, call));
        self.block = Some(block);
        self.line = line + 1;
        Ok(())
    }

    /// Answers a command of one line.
    fn answer<W: Output>(&mut self, writer: &mut W, command: Command) -> Result<(), RunError>
        requires { BeginsLine self.old }
        ensures reads { ReadsCommand A.may A.asks (command_of_line self.old.line command) self.old self.new (W.contents writer.old) (W.contents writer.new) result }
        ensures stuck { IfErr result (λ error. error.fault ≡ Fault.Write → IsTrue (W.stuck writer.new)) }
        ensures line { OnOk result (self.new.line ≡ self.old.line + 1) }
        ensures held { OnOk result (self.new.held ≡ []) }
    {
        let line = self.line;
        let mut reply = Reply::Done;
        let Ok(()) = self.machine.respond(command, &mut reply) else {
            return Err(RunError {
                fault: Fault::Memory,
                line,
            });
        };
        self.line = line + 1;
        self.replies += 1;
        if let Err(line) = self.outbox.post(writer, line, &reply) {
            return Err(RunError {
                fault: Fault::Write,
                line,
            });
        }
        Ok(())
    }

    /// Answers a block, at the line that ends it.
    fn answer_block<W: Output>(&mut self, writer: &mut W, block: Block) -> Result<(), RunError>
        requires { BeginsLine self.old }
        ensures reads { ReadsCommand A.may A.asks (command_in_block block) self.old self.new (W.contents writer.old) (W.contents writer.new) result }
        ensures stuck { IfErr result (λ error. error.fault ≡ Fault.Write → IsTrue (W.stuck writer.new)) }
        ensures line { OnOk result (self.new.line ≡ self.old.line + 1) }
        ensures held { OnOk result (self.new.held ≡ []) }
    {
        let line = block.line();
        let Ok(answers) = self.machine.respond_to_block(block) else {
            return Err(RunError {
                fault: Fault::Memory,
                line,
            });
        };
        self.line += 1;
        if let Err(line) = self.post_all(writer, answers) {
            return Err(RunError {
                fault: Fault::Write,
                line,
            });
        }
        Ok(())
    }

    /// Puts the answers to a block after those that wait, and counts them. The last line of the block was counted before.
    fn post_all<W: Output>(&mut self, writer: &mut W, answers: Answers) -> Result<(), u64>
        requires counted { self.old.replies + 1001 < 1001 * self.old.line }
        requires room { self.old.line < 2 ^ 53 }
        ensures ok { OnOk result ((before : List Answer) (first : Option (List ℕ)) →
            Owes self.old.box before first (W.contents writer.old)
            → Owes self.new.box (before ++ answers) first (W.contents writer.new)) }
        ensures replies { OnOk result (self.new.replies ≡ self.old.replies + length answers) }
        ensures err { IfErr result (λ at. (before : List Answer) (first : Option (List ℕ)) →
            Owes self.old.box before first (W.contents writer.old) → StopsIn (before ++ answers) first (W.contents writer.new) at) }
        ensures stuck { OnErr result (IsTrue (W.stuck writer.new)) }
        ensures same { self.new ≡ record self.old { box = self.new.box; replies = self.new.replies } }
    {
        let (clients, own) = answers.into_parts();
        self.replies += clients.len() as u64;
        self.outbox.post_all(writer, clients)?;
        let (line, reply) = own.into_parts();
        self.replies += 1;
        self.outbox.post(writer, line, &reply)
    }

    /// Reads the end of a line, whose beginning may be held.
    fn end_line<W: Output>(&mut self, writer: &mut W, text: &[u8]) -> Result<(), RunError>
        requires unbroken { newlines text.now ≡ 0 }
        requires room { self.old.line + 1 < 2 ^ 53 }
        ensures reads { ReadsOn A.may A.asks self.old self.new (text.now ++ 10 ∷ []) (W.contents writer.old) (W.contents writer.new) result }
        ensures stuck { IfErr result (λ error. error.fault ≡ Fault.Write → IsTrue (W.stuck writer.new)) }
        ensures line { OnOk result (self.new.line ≡ self.old.line + 1) }
    {
        if self.held.is_empty() {
            return self.take_line(writer, text);
        }
        self.hold(text)?;
        let line = mem::replace(&mut self.held, ArrayVec::new());
        self.take_line(writer, &line)
    }

    /// Holds a part of a line, whose end is yet to come.
    fn hold(&mut self, text: &[u8]) -> Result<(), RunError>
        requires { newlines text.now ≡ 0 }
        ensures reads { (now : Option (List ℕ)) → ReadsOn A.may A.asks self.old self.new text.now now now result }
        ensures ok { OnOk result (self.new ≡ record self.old { held = self.old.held ++ text.now }) }
        ensures fault { IfErr result (λ error. error.fault ≡ Fault.LongLine) }
    {
        if self.held.remaining_capacity() < text.len() {
            return Err(RunError {
                fault: Fault::LongLine,
                line: self.line,
            });
        }
        let _ = self.held.try_extend_from_slice(text);
        Ok(())
    }

    /// Reads bytes of a script.
    fn take_piece<W: Output>(&mut self, writer: &mut W, piece: &[u8]) -> Result<(), RunError>
        requires { self.old.line + length piece.now < 2 ^ 53 }
        ensures reads { ReadsOn A.may A.asks self.old self.new piece.now (W.contents writer.old) (W.contents writer.new) result }
        ensures stuck { IfErr result (λ error. error.fault ≡ Fault.Write → IsTrue (W.stuck writer.new)) }
        ensures line { OnOk result (self.new.line ≤ self.old.line + length piece.now) }
    {
        let mut rest = piece;
        while let Some((text, after)) = first_line(rest) {
            self.end_line(writer, text)?;
            rest = after;
        }
        self.hold(rest)
    }

    /// Reads bytes of a script, and writes the replies to them.
    fn play<W: Output>(&mut self, writer: &mut W, piece: &[u8]) -> Result<(), RunError>
        requires { self.old.line + length piece.now < 2 ^ 53 }
        ensures plays { PlaysOn A.may A.asks self.old self.new piece.now (W.contents writer.old) (W.contents writer.new) result }
        ensures stuck { IfErr result (λ error. error.fault ≡ Fault.Write → IsTrue (W.stuck writer.new)) }
        ensures line { OnOk result (self.new.line ≤ self.old.line + length piece.now) }
        ensures empty { OnOk result (self.new.box ≡ empty) }
    {
        match self.take_piece(writer, piece) {
            Ok(()) => self.flush(writer),
            Err(error) if error.is_of_writer() => Err(error),
            Err(error) => {
                self.flush(writer)?;
                Err(error)
            }
        }
    }

    /// Plays a whole input. The replies to what was read are written before more is read.
    fn run<R: Input, W: Output>(
        &mut self,
        reader: &mut R,
        writer: &mut W,
    ) -> Result<Totals, RunError>
        requires { self.old ≡ begun self.old.machine }
        ensures played { IsPlayed A.may A.asks self.old.machine (R.remaining reader.old) (R.remaining reader.new) (W.contents writer.old) (W.contents writer.new) result }
        ensures streams { LeavesStreams (R.failed reader.new) (R.reads reader.old) (R.reads reader.new) (R.remaining reader.old) (W.stuck writer.new) result }
    {
        let mut buffer = [0; 4096];
        for _ in 0..10_000_000_u32 {
            match reader.read_noted(&mut buffer) {
                Ok(0) => return self.end(),
                Ok(count) => self.play(writer, &buffer[..count])?,
                Err(_) => return Err(self.read_error()),
            }
        }
        Err(self.read_error())
    }

    /// The error where a script can't be read on.
    fn read_error(&self) -> RunError
        ensures { result ≡ record { fault = Fault.Read; line = self.now.line } }
    {
        RunError {
            fault: Fault::Read,
            line: self.line,
        }
    }

    /// What the end of the input is: the end of the script, or a fault where a line is cut off or a block isn't ended.
    fn end(&self) -> Result<Totals, RunError>
        ensures ok { IfOk result (λ totals. (start : A) (input : List ℕ) (first now : Option (List ℕ))
            → HasRead A.may start self.now input first now
            → (finishes : Finishes A.may start self.now input None first now)
            × (totals ≡ record { lines = newlines input; replies = length finishes.begins.answers })) }
        ensures err { IfErr result (λ error. (start : A) (input : List ℕ) (first now : Option (List ℕ))
            → HasRead A.may start self.now input first now → Finishes A.may start self.now input (Some error) first now) }
        ensures syntax { IfErr result (λ error. error.fault ≡ Fault.Syntax) }
    {
        if let Some(line) = self.cut_line() {
            return Err(RunError {
                fault: Fault::Syntax,
                line,
            });
        }
        Ok(Totals {
            lines: self.line - 1,
            replies: self.replies,
        })
    }

    /// The line at which the end of the input is a fault, if it is one: the line that is cut off, or that of a block that isn't ended.
    fn cut_line(&self) -> Option<u64>
        ensures held { 0 < length self.now.held → result ≡ Some self.now.line }
        ensures block { self.now.held ≡ [] → result ≡ option_map (λ b. b.line) self.now.reading.block }
    {
        if !self.held.is_empty() {
            return Some(self.line);
        }
        self.block.as_ref().map(Block::line)
    }

    /// Writes the replies that wait.
    fn flush<W: Output>(&mut self, writer: &mut W) -> Result<(), RunError>
        ensures empty { OnOk result (self.new ≡ record self.old { box = empty }) }
        ensures ok { OnOk result ((answers : List Answer) (first : Option (List ℕ))
            → Owes self.old.box answers first (W.contents writer.old) → Appends first (W.contents writer.new) (texts answers)) }
        ensures err { IfErr result (λ error. (answers : List Answer) (first : Option (List ℕ))
            → Owes self.old.box answers first (W.contents writer.old)
            → StopsIn answers first (W.contents writer.new) error.line) }
        ensures write { IfErr result (λ error. error.fault ≡ Fault.Write) }
        ensures stuck { OnErr result (IsTrue (W.stuck writer.new)) }
    {
        self.outbox.flush(writer).map_err(|line| RunError {
            fault: Fault::Write,
            line,
        })
    }
}

/// Plays the script that a reader gives on a machine, and writes its replies.
///
/// Refused as Syntax or LongLine at the line of the first fault of the script; as Read where a read failed, or where 10,000,000 reads
/// didn't come to the end; as Write where a write failed or took no byte, instead of any other error; as Memory where the machine, or a
/// block, found no memory. The replies to the commands before are written.
pub fn play<A: Respond + Drop, R: Input, W: Output>(
    alloc: Global,
    machine: A,
    reader: &mut R,
    writer: &mut W,
) -> Result<Totals, RunError>
    requires { A.ready machine }
    ensures played { IsPlayed A.may A.asks machine (R.remaining reader.old) (R.remaining reader.new) (W.contents writer.old) (W.contents writer.new) result }
    ensures streams { LeavesStreams (R.failed reader.new) (R.reads reader.old) (R.reads reader.new) (R.remaining reader.old) (W.stuck writer.new) result }
{
    let mut player = ScriptRunner::new(Blocks::new(alloc), machine);
    player.run(reader, writer)
}

/// What stands before the first newline, and what stands after it.
fn first_line(bytes: &[u8]) -> Option<(&[u8], &[u8])>
    ensures none { IfNone result (newlines bytes.now ≡ 0) }
    ensures line { IfSome result (λ parts. newlines parts.0.now ≡ 0) }
    ensures parts { IfSome result (λ parts. bytes.now ≡ parts.0.now ++ 10 ∷ parts.1.now) }
{
    let end = memchr(b'\n', bytes)?;
    Some((&bytes[..end], &bytes[end + 1..]))
}
