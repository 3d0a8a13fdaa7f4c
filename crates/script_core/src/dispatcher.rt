ghost use Rattle.std.specs.Prelude.{◌≡◌, None, IfOk, OnErr};
ghost use Rattle.text_core.specs.declared.command.Command.TheVariants.{Compact, Pool};
ghost use Rattle.text_core.specs.Script.{command_in_block};
ghost use Rattle.script_core.specs.WithThreads.{AsksMemory, IsBlockFor, IsStepBy, IsThreadedStep, is_threaded};

use crate::base_machine::BaseMachine;
use crate::with_threads::{broken_reply, broken_reply_to_block};
use frame_core::ZoneNo;
use std::alloc::AllocError;
use text_core::{Answers, Block, BlockCount, Command, PoolBlocks, Reply, Respond};

/// A machine with threads that answers a script. It answers by itself what a machine on one thread answers. For a round, for a pool
/// and for a block it has three calls, which start the threads. Those for a round and a pool write the reply over the one that they are
/// passed.
#[derive(Drop)]
pub(crate) struct Dispatcher<A, R, P, D> {
    pub(crate) machine: A,
    pub(crate) round: R,
    pub(crate) pool: P,
    pub(crate) block: D,
}

impl<
    A: BaseMachine,
    R: Fn(&mut A, ZoneNo, &mut Reply),
    P: Fn(&mut A, ZoneNo, BlockCount, PoolBlocks, &mut Reply),
    D: Fn(&mut A, Block) -> Result<Answers, AllocError>,
> Respond for Dispatcher<A, R, P, D> {
    ghost may = { λ old c answers new. IsThreadedStep (A.seen old.machine) c answers (A.seen new.machine) };

    ghost asks = { λ old command. AsksMemory (A.seen old.machine) command };

    // Where no zone is broken, each of the three calls may be made, and it answers as the machine's step says.
    ghost ready = { λ now.
        ((old : _) (zone : _) (reply : _) → (A.seen old.now).broken ≡ None → R.pre now.round old zone reply)
        × ((old : _) (zone : _) (reply : _) (done : _) (new : _) (told : _) → (A.seen old.now).broken ≡ None
        → R.post now.round old zone reply done new told
        → IsStepBy (is_threaded (Compact zone) (A.seen old.now).single.world) (A.seen old.now) (Compact zone) told.now (A.seen new.now))
        × ((old : _) (zone : _) (count : _) (blocks : _) (reply : _) → (A.seen old.now).broken ≡ None
        → P.pre now.pool old zone count blocks reply)
        × ((old : _) (zone : _) (count : _) (blocks : _) (reply : _) (done : _) (new : _) (told : _) → (A.seen old.now).broken ≡ None
        → P.post now.pool old zone count blocks reply done new told
        → IsStepBy (is_threaded (Pool zone count blocks) (A.seen old.now).single.world) (A.seen old.now) (Pool zone count blocks) told.now (A.seen new.now))
        × ((old : _) (block : _) → (A.seen old.now).broken ≡ None → D.pre now.block old block)
        × ((old : _) (block : _) (result : _) (new : _) → (A.seen old.now).broken ≡ None → D.post now.block old block result new
        → IfOk result (λ answers. IsThreadedStep (A.seen old.now) (command_in_block block) answers (A.seen new.now))
        × OnErr result (IsBlockFor (command_in_block block).command (A.seen old.now).single.world)) };

    fn respond(&mut self, command: Command, reply: &mut Reply) -> Result<(), AllocError> {
        if let Some(number) = self.machine.broken_zone() {
            *reply = broken_reply(number, command);
            return Ok(());
        }
        match command {
            Command::Compact { zone } => (self.round)(&mut self.machine, zone, reply),
            Command::Pool {
                zone,
                count,
                blocks,
            } => (self.pool)(&mut self.machine, zone, count, blocks, reply),
            Command::Open { .. }
            | Command::On { .. }
            | Command::During { .. }
            | Command::Profile2
            | Command::OutOfRange => self.machine.reply_alone(command, reply)?,
        }
        Ok(())
    }

    fn respond_to_block(&mut self, block: Block) -> Result<Answers, AllocError> {
        if let Some(number) = self.machine.broken_zone() {
            let reply = broken_reply_to_block(number, block.zone());
            return Ok(block.answered(reply));
        }
        (self.block)(&mut self.machine, block)
    }
}
