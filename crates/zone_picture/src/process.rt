ghost use Rattle.std.specs.Prelude.{◌≡◌, ◌≢◌, ◌≤◌, None, IfSome, OnOk};
ghost use Rattle.std.specs.Io.KnownBytes.{Keeps};
ghost use Rattle.text_core.specs.Script.{fault_of};

use crate::album::{Album, Panel};
use crate::drawing::draw;
use crate::error::PictureError;
use script_core::{Input, Options, Sink, run_watched};
use std::alloc::Global;
use std::env::Args;
use std::io;
use std::io::{BufWriter, Write};
use std::sync::Wait;
use std::thread::Threads;

/// The exit statuses.
const DONE: u8 = 0;

const FAULT: u8 = 1;

const REFUSED: u8 = 2;

const HELP: &str = "\
Draws the zone of the script on standard input, and writes one SVG to standard output.

Usage: zone_picture < SCRIPT > PICTURE

The zone is drawn before each `compact`, `pool` and `during`, after it, and at the end of the script, and the same zone only once.
A script with more than 8 of these commands is refused, and so is one that opens no zone. Rounds have two copiers.
";

/// What each script is run with.
const OPTIONS: Options = Options {
    copiers: 2,
    capacity: 8,
    journal: 65536,
};

/// What the words of the command line ask for.
pub enum Asked {
    Picture,
    Help,
    Unknown,
}

/// Draws the script that the reader gives, if that is asked for. The result is the exit status: 0 where the picture or the help was written, 2 where the words
/// were refused, and else 1. Why there is no picture is told to the writer of faults.
pub fn program<R: Input, W: Write, F: Write, H: Threads + Wait + Sync>(
    rt: &H,
    alloc: Global,
    asked: Asked,
    reader: &mut R,
    writer: &mut W,
    faults: &mut F,
) -> u8
    ensures status { result ≤ 2 }
    // Nothing is written of a script with a fault.
    ensures quiet { result ≢ 0 → IfSome (R.remaining reader.old) (λ input.
        fault_of input ≢ None → Keeps (W.contents writer.old) (W.contents writer.new)) }
{
    match asked {
        Asked::Picture => picture(rt, alloc, reader, writer, faults),
        Asked::Help => {
            let _ = writer.write_all(HELP.as_bytes());
            DONE
        }
        Asked::Unknown => {
            let _ = writeln!(faults, "zone_picture: it has no arguments but --help");
            REFUSED
        }
    }
}

/// What the words ask for, the first of which is the program's name.
pub fn read_words(words: io::Result<Args>) -> Asked {
    let Ok(words) = words else {
        return Asked::Unknown;
    };
    let mut words = words.skip(1);
    let Some(word) = words.next() else {
        return Asked::Picture;
    };
    if word.as_str() == "--help" && words.next().is_none() {
        Asked::Help
    } else {
        Asked::Unknown
    }
}

/// Runs the script, draws it, and gives the exit status.
fn picture<R: Input, W: Write, F: Write, H: Threads + Wait + Sync>(
    rt: &H,
    alloc: Global,
    reader: &mut R,
    writer: &mut W,
    faults: &mut F,
) -> u8
    ensures status { result ≤ 1 }
    ensures whole { result ≡ 0 → IfSome (R.remaining reader.old) (λ input. fault_of input ≡ None) }
    ensures quiet { IfSome (R.remaining reader.old) (λ input.
        fault_of input ≢ None → Keeps (W.contents writer.old) (W.contents writer.new)) }
{
    match drawn(rt, alloc, reader, writer) {
        Ok(()) => DONE,
        Err(error) => {
            let _ = writeln!(faults, "zone_picture: {error}");
            FAULT
        }
    }
}

/// Runs the script and writes its picture.
fn drawn<R: Input, W: Write, H: Threads + Wait + Sync>(
    rt: &H,
    alloc: Global,
    reader: &mut R,
    writer: &mut W,
) -> Result<(), PictureError>
    ensures whole { OnOk result (IfSome (R.remaining reader.old) (λ input. fault_of input ≡ None)) }
    ensures quiet { IfSome (R.remaining reader.old) (λ input.
        fault_of input ≢ None → Keeps (W.contents writer.old) (W.contents writer.new)) }
{
    let panels = panels_of(rt, alloc, reader)?;
    write_panels(alloc, writer, &panels).map_err(|_| PictureError::Write)
}

/// Runs the script, and answers its panels.
fn panels_of<R: Input, H: Threads + Wait + Sync>(
    rt: &H,
    alloc: Global,
    reader: &mut R,
) -> Result<Vec<Panel>, PictureError>
    ensures { OnOk result (IfSome (R.remaining reader.old) (λ input. fault_of input ≡ None)) }
{
    let mut album = Album::new(alloc);
    let mut replies = Sink::new(io::sink());
    run_watched(rt, alloc, reader, &mut replies, OPTIONS, &mut album).map_err(PictureError::Fault)?;
    album.into_panels()
}

/// Writes the picture of panels.
fn write_panels<W: Write>(alloc: Global, writer: &mut W, panels: &[Panel]) -> io::Result<()> {
    let mut out = BufWriter::new(alloc, writer)?;
    draw(&mut out, panels)?;
    out.flush()
}
