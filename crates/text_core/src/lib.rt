//! Scripts: lines become commands, replies become lines, and a run reads the lines of a script, has a machine answer its commands,
//! and writes the replies.
//!
//! `specs/Grammar.antt` has a row for each command, `specs/Line.antt` says what a line means, alone and in a block, and
//! `specs/Reply.antt` what the line of a reply is. The language is this project's own. `specs/Script.antt` says which commands a
//! whole input has and which fault is its first one, and `specs/Runs.antt` how a run may end, whatever machine answers. `play` does
//! exactly that, whatever pieces the input comes in. A machine is any type with the calls of `Respond`.
#![tactic(auto)]

mod answer;
mod arguments;
mod block;
mod block_count;
mod command;
mod error;
mod fault;
mod grammar;
mod input;
mod line;
mod output;
mod page_count;
mod pool;
mod profile;
mod reply;
mod reply_buffer;
mod respond;
mod script_runner;
mod sink;
mod source;
mod text;
mod token;
mod totals;

pub use answer::{Answer, Answers};
pub use block::{Block, ClientLine};
pub use block_count::BlockCount;
pub use command::{BlockLine, Call, Calls, Command, Repeated, Series};
pub use error::ScriptError;
pub use fault::{Fault, RunError};
pub use grammar::zone as zone_of;
pub use input::Input;
pub use line::{read_block_line, read_line};
pub use output::{Output, write_out};
pub use page_count::PageCount;
pub use pool::{PoolBlocks, PoolStopped};
pub use profile::Profile;
pub use reply::{Reply, Stopped, push_reply, reply_text};
pub use respond::Respond;
pub use script_runner::play;
pub use sink::Sink;
pub use source::Source;
pub use text::Text;
pub use totals::Totals;
