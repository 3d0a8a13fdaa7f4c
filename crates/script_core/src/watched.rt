//! How a script is played, watched or not.

ghost use Rattle.text_core.specs.Runs.{IsPlayed};
ghost use Rattle.text_core.specs.Streams.{LeavesStreams};

use crate::dispatcher::Dispatcher;
use crate::with_threads::WithThreads;
use std::alloc::{AllocError, Global};
use text_core::{
    Answer, Answers, Block, Command, Input, Output, Reply, Respond, RunError, Totals, play,
};
use zone_core::{Opening, ZoneIn};

/// What watches the run of a script. The zone that is open, if one is, is lent to it before each command and after it. A block is one
/// command.
pub trait Watch {
    /// The zone before a command.
    fn before<Z: Opening>(&mut self, command: &Command, zone: Option<&ZoneIn<Z>>);

    /// The zone after that command, and the reply; after a block its last reply.
    fn after<Z: Opening>(&mut self, reply: &Reply, zone: Option<&ZoneIn<Z>>);
}

/// What plays a script. Nothing watches unless a player says so.
pub(crate) trait Player: Sized + Drop {
    /// Plays the script that a reader gives on a machine, and writes its replies, as `play` does.
    fn play<A: Respond + Shows + Drop, R: Input, W: Output>(
        self,
        alloc: Global,
        machine: A,
        reader: &mut R,
        writer: &mut W,
    ) -> Result<Totals, RunError>
        requires ready { A.ready machine }
        ensures played { IsPlayed A.may A.asks machine (R.remaining reader.old) (R.remaining reader.new) (W.contents writer.old) (W.contents writer.new) result }
        ensures streams { LeavesStreams (R.failed reader.new) (R.reads reader.old) (R.reads reader.new) (R.remaining reader.old) (W.stuck writer.new) result }
    {
        play(alloc, machine, reader, writer)
    }
}

/// Plays a script that nothing watches.
#[derive(Drop)]
pub(crate) struct Unwatched;

impl Player for Unwatched {}

/// A watcher sees the zone before each command and after it.
impl<V: Watch> Player for &mut V {
    fn play<A: Respond + Shows + Drop, R: Input, W: Output>(
        self,
        alloc: Global,
        answering: A,
        reader: &mut R,
        writer: &mut W,
    ) -> Result<Totals, RunError> {
        let watched = Watched {
            answering,
            watcher: self,
        };
        play(alloc, watched, reader, writer)
    }
}

/// What has a zone to show.
pub(crate) trait Shows {
    /// Shows a watcher the zone before a command.
    fn show_before<V: Watch>(&self, watcher: &mut V, command: &Command);

    /// Shows a watcher the zone after that command, with the reply.
    fn show_after<V: Watch>(&self, watcher: &mut V, reply: &Reply);
}

impl<Z: Opening, R, P, D> Shows for Dispatcher<WithThreads<Z>, R, P, D> {
    fn show_before<V: Watch>(&self, watcher: &mut V, command: &Command) {
        watcher.before(command, self.machine.zone());
    }

    fn show_after<V: Watch>(&self, watcher: &mut V, reply: &Reply) {
        watcher.after(reply, self.machine.zone());
    }
}

/// A machine that answers a script, and what watches it. What it answers is what it would answer alone.
#[derive(Drop)]
struct Watched<'w, A, V> {
    answering: A,
    watcher: &'w mut V,
}

impl<A: Respond + Shows, V: Watch> Respond for Watched<'_, A, V> {
    ghost may = { λ old c answers new. A.may old.answering c answers new.answering };

    ghost asks = { λ old command. A.asks old.answering command };

    ghost ready = { λ now. A.ready now.answering };

    fn respond(&mut self, command: Command, reply: &mut Reply) -> Result<(), AllocError> {
        self.answering.show_before(self.watcher, &command);
        self.answering.respond(command, reply)?;
        self.answering.show_after(self.watcher, reply);
        Ok(())
    }

    fn respond_to_block(&mut self, block: Block) -> Result<Answers, AllocError> {
        let command = Command::During { zone: block.zone() };
        self.answering.show_before(self.watcher, &command);
        let answers = self.answering.respond_to_block(block)?;
        let (clients, own) = answers.into_parts();
        let (line, reply) = own.into_parts();
        self.answering.show_after(self.watcher, &reply);
        Ok(Answers::new(clients, Answer::new(line, reply)))
    }
}
