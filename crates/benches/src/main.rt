//! Measures rounds, clients beside rounds, calls of zones whose journals are unrecorded, and workers, each beside the same work done
//! otherwise. The first word says which: `rounds`, `clients`, `calls` or `workers`. With no further word it prints what they did, which is
//! the same in every run; with a number it prints how long they take. `rounds alone N` and `rounds filled N` do a part of the work N times,
//! to be counted from outside. `calls unrecorded N` makes N stores and as many loads in a zone whose journal is unrecorded, and `calls`
//! alone a thousand of each. `workers N` is about a zone of N pageblocks, and so are `workers one N`, of one thread alone, and
//! `workers T N`, of T workers. Without any word it prints what all four did.
#![tactic(auto)]

mod calls;
mod clients;
mod opening;
mod rounds;
mod settings;
mod times;
mod workers;

use anyhow::{Context, Error, Result, anyhow};
use std::alloc::Global;
use std::env;
use std::env::Args;
use std::sync::Wait;
use std::thread::Threads;
use std::time::Clock;

/// What does the work: it starts threads, waits, prints and tells the time.
trait Runtime: Threads + Wait + Print + Clock + Sync {}

impl<R: Threads + Wait + Print + Clock + Sync> Runtime for R {}

fn main(rt: HostRuntime) -> Result<()> {
    let mut words = env::args(&rt)?;
    let _program = words.next();
    let Some(subject) = words.next() else {
        return show_all(&rt, rt.alloc());
    };
    show(&rt, rt.alloc(), Subject::named(subject.as_str())?, words)
}

/// What each subject does.
fn show_all<R: Runtime>(rt: &R, alloc: Global) -> Result<()> {
    for subject in SUBJECTS {
        show_doings(rt, alloc, subject)?;
    }
    Ok(())
}

/// What is measured.
#[derive(Clone, Copy)]
enum Subject {
    Rounds,
    Clients,
    Calls,
    Workers,
}

const SUBJECTS: [Subject; 4] = [
    Subject::Rounds,
    Subject::Clients,
    Subject::Calls,
    Subject::Workers,
];

impl Subject {
    /// The subject that a word names.
    fn named(word: &str) -> Result<Subject> {
        match word {
            "rounds" => Ok(Subject::Rounds),
            "clients" => Ok(Subject::Clients),
            "calls" => Ok(Subject::Calls),
            "workers" => Ok(Subject::Workers),
            _ => Err(usage()),
        }
    }
}

fn show<R: Runtime>(rt: &R, alloc: Global, subject: Subject, mut words: Args) -> Result<()> {
    match (words.next(), words.next()) {
        (None, _) => show_doings(rt, alloc, subject),
        (Some(times), None) => show_times(rt, alloc, subject, number_in(times.as_str())?),
        (Some(part), Some(times)) => {
            show_part(rt, alloc, subject, part.as_str(), times.as_str())
        }
    }
}

/// What a subject does.
fn show_doings<R: Runtime>(rt: &R, alloc: Global, subject: Subject) -> Result<()> {
    let shown = match subject {
        Subject::Rounds => rounds::show_moves(rt, alloc),
        Subject::Clients => clients::show_settled(rt, alloc),
        Subject::Calls => calls::show_calls(rt, alloc, 1000),
        Subject::Workers => return workers::show_doings(rt, alloc),
    };
    Ok(shown?)
}

/// How long a subject takes.
fn show_times<R: Runtime>(rt: &R, alloc: Global, subject: Subject, times: u32) -> Result<()> {
    let shown = match subject {
        Subject::Rounds => rounds::show_times(rt, alloc, times),
        Subject::Clients => clients::show_times(rt, alloc, times),
        Subject::Calls => calls::show_times(rt, alloc, times),
        Subject::Workers => return workers::show_times(rt, alloc, times),
    };
    Ok(shown?)
}

/// What a part of a subject does.
fn show_part<R: Runtime>(
    rt: &R,
    alloc: Global,
    subject: Subject,
    part: &str,
    times: &str,
) -> Result<()> {
    match (subject, part) {
        (Subject::Rounds, part) => rounds::show_part(rt, alloc, part, number_in(times)?),
        (Subject::Calls, "unrecorded") => Ok(calls::show_calls(rt, alloc, number_in(times)?)?),
        (Subject::Workers, part) => workers::show_part(rt, alloc, part, number_in(times)?),
        _ => Err(usage()),
    }
}

fn number_in(word: &str) -> Result<u32> {
    word.parse::<u32>().ok().context("a number is wanted")
}

/// What is told where no such thing can be shown.
fn usage() -> Error {
    anyhow!("wanted: rounds, clients, calls or workers, and then a number")
}
