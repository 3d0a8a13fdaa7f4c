ghost use Rattle.std.specs.Prelude.{◌≡◌, ◌≢◌, ◌+◌, ◌≤◌, ◌⊎◌, [], false, true, IfOk, IfErr, IfSome};
ghost use Rattle.std.specs.Io.KnownBytes.{Keeps};
ghost use Rattle.clap.specs.Words.{kind_of};
ghost use Rattle.script_core.specs.CommandLine.{IfDone, texts_of, refusal_of, journal_of, is_help, asks_help, asks_only_help};
ghost use Rattle.script_core.specs.Runs.{IsAnsweredWhole};
ghost use Rattle.script_core.specs.Status.{status_of};
ghost use Rattle.script_core.specs.Stops.{LacksMemory, Stops};

use crate::on_threads::run_on_threads;
use crate::options::given_options;
use crate::report::report;
use clap::Error;
use clap::error::ErrorKind;
use machine_core::Options;
use std::alloc::Global;
use std::env::Args;
use std::io;
use std::io::Write;
use std::sync::Wait;
use std::thread::Threads;
use text_core::{Fault, Input, Output, RunError};

/// The exit statuses.
const DONE: u8 = 0;

const FAULT: u8 = 1;

const REFUSED: u8 = 2;

/// Runs the script that the reader gives, with the options of the command line, and its rounds on threads. The result is the exit
/// status: 0 where the whole script was answered, or help or version was asked for; 1 for a fault of the run or for want of memory; 2
/// where the command line was refused. What the clauses say of bytes holds for readers and writers that tell their bytes.
pub fn program<R: Input, W: Output, F: Output, H: Threads + Wait + Sync>(
    rt: &H,
    alloc: Global,
    words: io::Result<Args>,
    reader: &mut R,
    writer: &mut W,
    faults: &mut F,
) -> u8
    ensures status { result ≤ 2 }
    // The words weren't all text.
    ensures unread { IfErr words (λ error. (result ≡ 2) ⊎ LacksMemory result (W.contents writer.old) (W.contents writer.new)
        (F.contents faults.old) (F.contents faults.new) (F.stuck faults.new)) }
    // Words that clap refuses give 2, and nothing else does; where they ask only for help or version, the status is 0.
    ensures refused { IfOk words (λ args. refusal_of (texts_of args) ≢ [] → asks_help (texts_of args) ≡ false
        → (result ≡ 2) ⊎ LacksMemory result (W.contents writer.old) (W.contents writer.new)
        (F.contents faults.old) (F.contents faults.new) (F.stuck faults.new)) }
    ensures refused_only { IfOk words (λ args. result ≡ 2 → asks_only_help (texts_of args) ≡ false) }
    ensures help { IfOk words (λ args. refusal_of (texts_of args) ≢ [] → asks_only_help (texts_of args) ≡ true
        → (result ≡ 0) ⊎ LacksMemory result (W.contents writer.old) (W.contents writer.new)
        (F.contents faults.old) (F.contents faults.new) (F.stuck faults.new)) }
    ensures quiet { result ≡ 2 → Keeps (W.contents writer.old) (W.contents writer.new) }
    // At most ten million reads of the script give bytes.
    ensures few { R.reads reader.new ≤ R.reads reader.old + 10000000 }
    // Where the words give options and the status is 0, the script has no fault, and was answered: one without blocks as where each
    // round is made by hand.
    ensures whole { IfDone words result (R.remaining reader.old) (λ places input.
        IsAnsweredWhole places input (W.contents writer.old) (W.contents writer.new)) }
    // There was no memory to read the words, or the run stopped.
    ensures fault { IfOk words (λ args. result ≡ 1 → LacksMemory result (W.contents writer.old) (W.contents writer.new)
        (F.contents faults.old) (F.contents faults.new) (F.stuck faults.new) ⊎ Stops (journal_of (texts_of args))
        (R.remaining reader.old) (R.remaining reader.new) (W.contents writer.old) (W.contents writer.new)
        (R.reads reader.old) (R.reads reader.new) (R.failed reader.new) (W.stuck writer.new)
        (F.contents faults.old) (F.contents faults.new) (F.stuck faults.new)) }
{
    match given_options(alloc, words) {
        Ok(options) => play(rt, alloc, reader, writer, faults, options),
        Err(error) => answer(&error, writer, faults),
    }
}

/// Runs the script with these options.
fn play<R: Input, W: Output, F: Output, H: Threads + Wait + Sync>(
    rt: &H,
    alloc: Global,
    reader: &mut R,
    writer: &mut W,
    faults: &mut F,
    options: Options,
) -> u8
    ensures status { result ≤ 1 }
    ensures few { R.reads reader.new ≤ R.reads reader.old + 10000000 }
    ensures whole { result ≡ 0 → IfSome (R.remaining reader.old) (λ input.
        IsAnsweredWhole options.journal input (W.contents writer.old) (W.contents writer.new)) }
    ensures fault { result ≡ 1 → Stops options.journal
        (R.remaining reader.old) (R.remaining reader.new) (W.contents writer.old) (W.contents writer.new)
        (R.reads reader.old) (R.reads reader.new) (R.failed reader.new) (W.stuck writer.new)
        (F.contents faults.old) (F.contents faults.new) (F.stuck faults.new) }
{
    match run_on_threads(rt, alloc, reader, writer, options) {
        Ok(_) => DONE,
        Err(error) => {
            report(faults, error);
            FAULT
        }
    }
}

/// Writes clap's answer where it isn't options, and gives the status that goes with it.
fn answer<W: Output, F: Output>(error: &Error, writer: &mut W, faults: &mut F) -> u8
    ensures status { result ≡ status_of (kind_of error.now) }
    ensures quiet { is_help (kind_of error.now) ≡ false → Keeps (W.contents writer.old) (W.contents writer.new) }
    ensures memory { kind_of error.now ≡ ErrorKind.OutOfMemory → LacksMemory result (W.contents writer.old) (W.contents writer.new)
        (F.contents faults.old) (F.contents faults.new) (F.stuck faults.new) }
{
    match error.kind() {
        ErrorKind::DisplayHelp | ErrorKind::DisplayVersion => {
            let _ = writer.write_fmt(error);
            DONE
        }
        ErrorKind::OutOfMemory => {
            report(
                faults,
                RunError {
                    fault: Fault::Memory,
                    line: 0,
                },
            );
            FAULT
        }
        _ => {
            let _ = faults.write_fmt(error);
            REFUSED
        }
    }
}
