ghost use Rattle.std.specs.Prelude.{◌≡◌, IfOk, None, OnErr};
ghost use Rattle.zone_core.specs.Books.{AreFor};
ghost use Rattle.text_core.specs.declared.command.Command.TheVariants.{Compact, Pool};
ghost use Rattle.text_core.specs.Script.{command_in_block};
ghost use Rattle.text_core.specs.Streams.{LeavesStreams};
ghost use Rattle.script_core.specs.Runs.{IsRunOnThreads};
ghost use Rattle.script_core.specs.WithThreads.{IsBlockFor, IsStepBy, IsThreadedStep, is_threaded};

use crate::dispatcher::Dispatcher;
use crate::watched::{Player, Unwatched, Watch};
use crate::with_threads::WithThreads;
use frame_core::ZoneNo;
use machine_core::Options;
use std::alloc::Global;
use std::marker::Brand;
use std::sync::Wait;
use std::thread::Threads;
use text_core::{Block, BlockCount, Input, Output, PoolBlocks, Reply, RunError, Totals};
use zone_core::{Blanks, Opening};

/// Runs a script as `run` does, but its rounds and pools on threads, and the calls of a client during the round of a block. These calls
/// may be answered in more than one way, so a script with blocks is answered by replies that its machine may give. The replies to a
/// script without blocks are a function of its bytes, up to a round or a pool that was refused 31, 32, 33 or 34: the replies that it has
/// where each round is made by hand.
pub fn run_on_threads<R: Input, W: Output, H: Threads + Wait + Sync>(
    rt: &H,
    alloc: Global,
    reader: &mut R,
    writer: &mut W,
    options: Options,
) -> Result<Totals, RunError>
    ensures run { IsRunOnThreads options.journal (R.remaining reader.old) (R.remaining reader.new) (W.contents writer.old) (W.contents writer.new) result }
    ensures streams { LeavesStreams (R.failed reader.new) (R.reads reader.old) (R.reads reader.new) (R.remaining reader.old) (W.stuck writer.new) result }
{
    let blanks = Blanks::new();
    run_threaded::<Brand, R, W, H, Unwatched>(rt, alloc, reader, writer, options, blanks, Unwatched)
}

/// Runs a script as `run_on_threads` does, and shows a watcher the zone before each command and after it.
pub fn run_watched<R: Input, W: Output, H: Threads + Wait + Sync, V: Watch>(
    rt: &H,
    alloc: Global,
    reader: &mut R,
    writer: &mut W,
    options: Options,
    watcher: &mut V,
) -> Result<Totals, RunError>
    ensures run { IsRunOnThreads options.journal (R.remaining reader.old) (R.remaining reader.new) (W.contents writer.old) (W.contents writer.new) result }
    ensures streams { LeavesStreams (R.failed reader.new) (R.reads reader.old) (R.reads reader.new) (R.remaining reader.old) (W.stuck writer.new) result }
{
    let blanks = Blanks::new();
    run_threaded::<Brand, R, W, H, &mut V>(rt, alloc, reader, writer, options, blanks, watcher)
}

/// Runs a script on threads, as this player plays it. `Z` names the zone that it opens, if it opens one.
fn run_threaded<Z: Opening + Send + Sync, R: Input, W: Output, H: Threads + Wait + Sync, P: Player>(
    rt: &H,
    alloc: Global,
    reader: &mut R,
    writer: &mut W,
    options: Options,
    blanks: Blanks,
    player: P,
) -> Result<Totals, RunError>
    requires blanks { AreFor blanks Z.isolated Z.rounds Z.moved Z.back }
    ensures run { IsRunOnThreads options.journal (R.remaining reader.old) (R.remaining reader.new) (W.contents writer.old) (W.contents writer.new) result }
    ensures streams { LeavesStreams (R.failed reader.new) (R.reads reader.old) (R.reads reader.new) (R.remaining reader.old) (W.stuck writer.new) result }
{
    let round = move |machine: &mut WithThreads<Z>, zone: ZoneNo, reply: &mut Reply|
        requires whole { machine.old.broken ≡ None }
        ensures { IsStepBy (is_threaded (Compact zone) machine.old.single.world) machine.old (Compact zone) reply.new machine.new }
    { machine.answer_compact(rt, alloc, zone, reply) };
    let pool = move |machine: &mut WithThreads<
        Z,
    >, zone: ZoneNo, count: BlockCount, blocks: PoolBlocks, reply: &mut Reply,|
        requires whole { machine.old.broken ≡ None }
        ensures { IsStepBy (is_threaded (Pool zone count blocks) machine.old.single.world) machine.old (Pool zone count blocks) reply.new machine.new }
    { machine.answer_pool(rt, alloc, zone, count, blocks, reply) };
    let block = move |machine: &mut WithThreads<Z>, block: Block|
        requires whole { machine.old.broken ≡ None }
        ensures ok { IfOk result (λ answers. IsThreadedStep machine.old (command_in_block block) answers machine.new) }
        ensures memory { OnErr result (IsBlockFor (command_in_block block).command machine.old.single.world) }
    { machine.answer_block(rt, alloc, block) };
    let machine = WithThreads::new(alloc, options, blanks);
    let answering = Dispatcher {
        machine,
        round,
        pool,
        block,
    };
    player.play(alloc, answering, reader, writer)
}
