//! The program: runs the script on its standard input, and writes a reply for each command.
#![tactic(auto)]

use script_core::{Sink, Source, program};
use std::process::ExitCode;
use std::{env, io};

fn main(rt: HostRuntime) -> ExitCode {
    ExitCode::from(program(
        &rt,
        rt.alloc(),
        env::args(&rt),
        &mut Source::new(rt.reader()),
        &mut Sink::new(io::writer(&rt)),
        &mut Sink::new(rt.stderr()),
    ))
}
