//! Scripts: a machine with at most one zone answers commands, and a run reads them and writes the replies.
//!
//! `text_core` reads a script and writes the replies. `machine_core` answers on one thread, by `run` and `run_text`. On threads, by
//! `run_on_threads`, a block may be answered in more than one way, and a round or a pool may be refused: `specs/WithThreads.antt` says when,
//! and `specs/Clients.antt` what the calls during a round are answered. `specs/ByHand.antt` says how a script without blocks is answered,
//! whatever the schedule, and `law` what is read in the replies to every script. `run_watched` also shows the zone to a watcher. `program` is a run
//! of `compactd`: the words that it is started with, its streams, and the status that it ends with.
//! `given_options` is what clap makes of its words, and the options that they give.
#![tactic(auto)]

mod base_machine;
mod beside;
mod dispatcher;
mod law;
mod on_threads;
mod options;
mod process;
mod report;
mod watched;
mod with_threads;

pub use law::{
    counts_add_up, profile_2_keeps_replies, replies_are_by_hand, values_are_stored, worlds_agree,
};
pub use machine_core::{Options, run, run_text};
pub use on_threads::{run_on_threads, run_watched};
pub use options::given_options;
pub use process::program;
pub use state_core::{ClientCall, ZoneCall};
pub use text_core::{
    BlockCount, Call, Calls, Command, Fault, Input, Output, PageCount, PoolBlocks, PoolStopped,
    Repeated, Reply, RunError, ScriptError, Series, Sink, Source, Stopped, Text, Totals, read_line,
    reply_text, write_out,
};
pub use watched::Watch;
