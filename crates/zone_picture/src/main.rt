//! Draws the zone of a script: the script is read from standard input, and one SVG is written to standard output.
#![tactic(auto)]

mod album;
mod cell;
mod drawing;
mod error;
mod pageblock;
mod process;
mod sheet;
mod sign;
mod view;

use process::{program, read_words};
use script_core::Source;
use std::process::ExitCode;
use std::{env, io};

fn main(rt: HostRuntime) -> ExitCode {
    let asked = read_words(env::args(&rt));
    ExitCode::from(program(
        &rt,
        rt.alloc(),
        asked,
        &mut Source::new(rt.reader()),
        &mut io::writer(&rt),
        &mut rt.stderr(),
    ))
}
