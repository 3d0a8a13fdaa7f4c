ghost use Rattle.std.specs.Prelude.{◌≡◌, ◌≢◌, ◌<◌, IfErr, IfOk, IfSome, IsTrue, OnOk, OnSome, None, Some, length};
ghost use Rattle.std.specs.Io.KnownBytes.{Appends};
ghost use Rattle.zone_core.specs.Books.{AreFor};
ghost use Rattle.text_core.specs.declared.fault.Fault.{Fault};
ghost use Rattle.machine_core.specs.Ends.{EndsIn, FailsAfter, LacksMemory, is_of_script, is_over};
ghost use Rattle.text_core.specs.Script.{StopsIn, fault_of};
ghost use Rattle.text_core.specs.Streams.{LeavesStreams};
ghost use Rattle.machine_core.specs.Replies.{answers_of, output_of, totals_of};

use crate::machine::Machine;
use crate::options::Options;
use std::alloc::Global;
use std::marker::Brand;
use text_core::{Input, Output, RunError, Text, Totals, play};
use zone_core::{Blanks, Opening};

/// Runs a script: reads its lines, answers its commands and writes the replies, up to its end or to its first fault. A round is
/// refused, since there are no threads. The clauses speak of readers and writers that tell their bytes, whatever pieces these are
/// read and written in.
pub fn run<R: Input, W: Output>(
    alloc: Global,
    reader: &mut R,
    writer: &mut W,
    options: Options,
) -> Result<Totals, RunError>
    // The script has no fault, and all of its commands are answered.
    ensures ok { OnOk result (IfSome (R.remaining reader.old) (λ input. fault_of input ≡ None)) }
    ensures totals { IfOk result (λ totals. IfSome (R.remaining reader.old) (λ input.
        totals ≡ totals_of options.journal input)) }

    // A fault in the script is its first one, and the replies to the commands before it are written.
    ensures fault { IfErr result (λ error. IsTrue (is_of_script error.fault) → IfSome (R.remaining reader.old) (λ input.
        fault_of input ≡ Some error)) }
    ensures output { IsTrue (is_over result) → IfSome (R.remaining reader.old) (λ input.
        Appends (W.contents writer.old) (W.contents writer.new) (output_of options.journal input)) }

    // Where a read ended the run, it failed, or ten million reads didn't come to the end; where a write did, it failed or took no byte.
    ensures streams { LeavesStreams (R.failed reader.new) (R.reads reader.old) (R.reads reader.new) (R.remaining reader.old) (W.stuck writer.new) result }

    // Whatever else ends the run, the replies to the commands before are written, unless it is that they can't be.
    ensures read { IfErr result (λ error. error.fault ≡ Fault.Read → OnSome (R.remaining reader.old)
        (FailsAfter options.journal (R.remaining reader.old) (R.remaining reader.new)
        (W.contents writer.old) (W.contents writer.new) error.line)) }
    ensures write { IfErr result (λ error. error.fault ≡ Fault.Write → IfSome (R.remaining reader.old) (λ input.
        StopsIn (answers_of options.journal input) (W.contents writer.old) (W.contents writer.new) error.line)) }
    ensures memory { IfErr result (λ error. error.fault ≡ Fault.Memory → IfSome (R.remaining reader.old) (λ input.
        LacksMemory options.journal input (W.contents writer.old) (W.contents writer.new) error.line)) }
{
    run_with::<Brand, R, W>(alloc, reader, writer, options, Blanks::new())
}

/// Runs a script that is in memory. No read of it fails.
pub fn run_text<W: Output>(
    alloc: Global,
    script: &[u8],
    writer: &mut W,
    options: Options,
) -> Result<Totals, RunError>
    ensures ok { OnOk result (fault_of script.now ≡ None) }
    ensures totals { IfOk result (λ totals. totals ≡ totals_of options.journal script.now) }
    ensures fault { IfErr result (λ error. IsTrue (is_of_script error.fault) → fault_of script.now ≡ Some error) }
    ensures output { IsTrue (is_over result) → Appends (W.contents writer.old) (W.contents writer.new)
        (output_of options.journal script.now) }
    // Each read gives at least a byte, so ten million reads come to the end of a text with fewer than 10,000,000 bytes.
    ensures read { length script.now < 10000000 → IfErr result (λ error. error.fault ≢ Fault.Read) }
    ensures write { IfErr result (λ error. error.fault ≡ Fault.Write → StopsIn (answers_of options.journal script.now)
        (W.contents writer.old) (W.contents writer.new) error.line) }
    ensures stuck { IfErr result (λ error. error.fault ≡ Fault.Write → IsTrue (W.stuck writer.new)) }
    ensures memory { IfErr result (λ error. error.fault ≡ Fault.Memory → LacksMemory options.journal script.now
        (W.contents writer.old) (W.contents writer.new) error.line) }
{
    run(alloc, &mut Text::new(script), writer, options)
}

/// Runs a script. `Z` names the zone that it opens, if it opens one.
fn run_with<Z: Opening, R: Input, W: Output>(
    alloc: Global,
    reader: &mut R,
    writer: &mut W,
    options: Options,
    blanks: Blanks,
) -> Result<Totals, RunError>
    requires blanks { AreFor blanks Z.isolated Z.rounds Z.moved Z.back }
    ensures ok { OnOk result (IfSome (R.remaining reader.old) (λ input. fault_of input ≡ None)) }
    ensures totals { IfOk result (λ totals. IfSome (R.remaining reader.old) (λ input.
        totals ≡ totals_of options.journal input)) }
    ensures output { OnOk result (IfSome (R.remaining reader.old) (λ input.
        Appends (W.contents writer.old) (W.contents writer.new) (output_of options.journal input))) }
    ensures err { IfErr result (λ error. IfSome (R.remaining reader.old) (λ input.
        EndsIn error.fault options.journal input error (R.remaining reader.old) (R.remaining reader.new)
        (W.contents writer.old) (W.contents writer.new))) }
    ensures streams { LeavesStreams (R.failed reader.new) (R.reads reader.old) (R.reads reader.new) (R.remaining reader.old) (W.stuck writer.new) result }
{
    let machine = Machine::<Z>::new(alloc, options.journal, blanks);
    play(alloc, machine, reader, writer)
}
