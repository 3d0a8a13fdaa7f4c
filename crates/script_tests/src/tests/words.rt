//! What the program makes of the words that it is started with.

use super::cases::{Case, FIRST_SCRIPT, NOTHING};
use super::fakes::Limited;
use super::{Outcome, assert_read, played, words_of};
use script_core::{Options, Text, given_options};
use std::process::Abort;
use std::sync::Wait;
use std::thread::Threads;

/// Runs the program with these arguments over the first script.
fn started<H: Threads + Wait + Abort + AllocGlobal + Sync>(rt: &H, arguments: &[&str]) -> Outcome {
    let writer = Limited::with_room(rt.alloc(), usize::MAX);
    played(rt, arguments, &mut Text::new(FIRST_SCRIPT), writer)
}

/// Arguments that are refused.
const REFUSED: [&[&str]; 8] = [
    &["--copiers", "5"],
    &["--copiers", "0"],
    &["--capacity", "65"],
    &["--journal", "65537"],
    &["--journal"],
    &["--copiers", "1", "--copiers", "2"],
    &["script"],
    &["--other"],
];

#[test]
fn refuses_arguments(rt: HostRuntime) {
    for arguments in REFUSED {
        let found = started(&rt, arguments);
        let is_silent = found.replies.is_empty();
        let is_told = found.faults.starts_with(b"error: ");
        assert!(rt; is_silent && is_told && found.status == 2, "{arguments:?}");
    }
}

/// Arguments, and the copiers, the capacity and the places of the journal that they give.
const GIVEN: [(&[&str], usize, usize, u32); 4] = [
    (&[], 2, 8, 65536),
    (&["--copiers", "3"], 3, 8, 65536),
    (&["--capacity", "5"], 2, 5, 65536),
    (&["--journal", "7"], 2, 8, 7),
];

#[test]
fn reads_each_option_for_itself(rt: HostRuntime) {
    for (arguments, copiers, capacity, journal) in GIVEN {
        let found = given_options(rt.alloc(), Ok(words_of(&rt, arguments)));
        let wanted = Options {
            copiers,
            capacity,
            journal,
        };
        assert!(rt; found.ok() == Some(wanted));
    }
}

/// Parts of the help.
const HELP: [&str; 6] = [
    "Usage: compactd [OPTIONS] < SCRIPT\n",
    "--copiers <N>   Copier threads per round, 1 to 4 [default: 2]",
    "--capacity <N>  Pages per queue of a round, 1 to 64 [default: 8]",
    "--journal <N>   Records in the journal, 1 to 65536 [default: 65536]",
    "  zone Z B, info Z\n",
    "  during Z, then lines of a client as above, then end\n",
];

#[test]
fn shows_help(rt: HostRuntime) {
    let found = started(&rt, &["--help"]);
    assert!(rt; found.faults.is_empty() && found.status == 0);
    let text = std::str::from_utf8(found.replies.as_slice()).expect(&rt, "text");
    for part in HELP {
        assert!(rt; text.contains(part), "{part}");
    }
}

#[test]
fn shows_its_version(rt: HostRuntime) {
    let case = Case {
        name: "the version",
        arguments: &["--version"],
        script: FIRST_SCRIPT,
        replies: b"compactd 0.2.0\n",
        ..NOTHING
    };
    assert_read(&rt, &case, case.script.len());
}
