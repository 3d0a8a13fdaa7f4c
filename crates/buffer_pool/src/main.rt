//! The buffers of a database, pages of 4 KiB in a zone. Ten million calls: transactions pin a buffer, load and store words of it, and
//! unpin it; now and then a buffer is evicted, and another block of the file is brought in. At times large buffers of 2 MiB are
//! asked for, and a round of compaction makes room for them. Prints what was counted, and how many buffers held what was stored. With
//! `--frames N` the zone has N frames, and there are as many more buffers.
#![tactic(auto)]

mod buffers;
mod draws;
mod file;
mod large;
mod options;
mod pool;
mod run;
mod tally;
mod transactions;
mod trouble;

use options::{WANTED, size_asked};
use run::{Outcome, run};
use std::process::ExitCode;
use std::{env, io};

/// The exit statuses of a run that can't be made, and of words that are wrong.
const FAILED: u8 = 1;

const REFUSED: u8 = 2;

fn main(rt: HostRuntime) -> io::Result<ExitCode> {
    let Some(size) = size_asked(env::args(&rt)) else {
        eprintln!(rt; "buffer_pool: {WANTED}")?;
        return Ok(ExitCode::from(REFUSED));
    };
    match run(rt.alloc(), size) {
        Ok(outcome) => {
            show(&rt, &outcome)?;
            Ok(ExitCode::SUCCESS)
        }
        Err(trouble) => {
            eprintln!(rt; "buffer_pool: {trouble}")?;
            Ok(ExitCode::from(FAILED))
        }
    }
}

fn show<R: Print>(rt: &R, outcome: &Outcome) -> io::Result<()> {
    let Outcome {
        tally,
        calls,
        records,
        moved,
    } = outcome;
    println!(rt; "calls {calls}, records in the journal {records}")?;
    println!(rt;
        "transactions that loaded what was stored: {}",
        tally.transactions
    )?;
    println!(rt;
        "evicted buffers that held what was stored: {}",
        tally.evicted
    )?;
    println!(rt;
        "buffers at the end that held what was stored: {}",
        tally.left
    )?;
    println!(rt;
        "large buffers that were got: {}, rounds {}, buffers moved {moved}",
        tally.large, tally.rounds
    )?;
    println!(rt;
        "pinned buffers that stayed in their frames: {}",
        tally.pinned
    )
}
