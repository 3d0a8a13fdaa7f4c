//! Readers that give a few bytes a call or fail, and writers that fail, take a few bytes a call, or none.

use super::cases::{
    Case, FIRST_REPLIES, FIRST_SCRIPT, LONG_LINE, LONGEST_LINE, clients, lines, wrong_blocks,
};
use super::fakes::{Full, Limited, Pieces};
use super::{assert_played, assert_read, played, text_of, words_of};
use script_core::{Sink, Source, Text, program};
use std::io::Read;
use std::process::Abort;
use std::sync::Wait;
use std::thread::Threads;

/// Runs each case, whose script is read in pieces of so many bytes.
fn assert_each_read<H: Threads + Wait + Abort + AllocGlobal + Sync>(
    rt: &H,
    cases: &[Case<'_>],
    size: usize,
) {
    for case in cases {
        assert_read(rt, case, size);
    }
}

#[test]
fn reads_a_few_bytes_at_a_time(rt: HostRuntime) {
    for cases in [lines(), clients(), wrong_blocks()] {
        for size in [1, 2, 7] {
            assert_each_read(&rt, cases, size);
        }
    }
}

#[test]
fn a_source_gives_what_its_reader_gives(rt: HostRuntime) {
    let mut source = Source::new(Pieces::of(b"zone", 4));
    let mut bytes = [0; 4];
    assert!(rt; source.read(&mut bytes).ok() == Some(4));
    assert!(rt; bytes == *b"zone");
}

/// Runs a case whose script has so many spaces at its end.
fn assert_spaced<H: Threads + Wait + Abort + AllocGlobal + Sync>(
    rt: &H,
    case: &Case<'_>,
    spaces: usize,
    size: usize,
) {
    let script = with_spaces(rt, "zone 0 1\ninfo 0", spaces);
    let case = Case {
        script: script.as_bytes(),
        ..*case
    };
    assert_read(rt, &case, size);
}

#[test]
fn refuses_lines_of_more_than_200_bytes(rt: HostRuntime) {
    for size in [4096, 7] {
        assert_spaced(&rt, &LONGEST_LINE, 194, size);
    }
    for size in [4096, 1, 2, 7] {
        assert_spaced(&rt, &LONG_LINE, 195, size);
    }
}

/// A line with so many spaces at its end.
fn with_spaces(rt: &(impl Abort + AllocGlobal), line: &str, spaces: usize) -> String {
    let mut text = text_of(rt, line);
    for _ in 0..spaces {
        text.push(' ').expect(rt, "memory");
    }
    text.push('\n').expect(rt, "memory");
    text
}

/// What the program writes of a fault.
fn fault_text(rt: &(impl Abort + AllocGlobal), fault: u32, line: usize) -> String {
    format!(in rt.alloc(); "compactd: fault {fault} at line {line}\n").expect(rt, "memory")
}

/// Each line of the script is a command, so the k-th reply is of the k-th line.
fn line_of_byte(text: &[u8], at: usize) -> usize {
    1 + text.iter().take(at).filter(|byte| **byte == b'\n').count()
}

/// The lines of a text before this one.
fn lines_before(text: &[u8], line: usize) -> &[u8] {
    let mut left = line.saturating_sub(1);
    for (at, byte) in text.iter().enumerate() {
        if left == 0 {
            return &text[..at];
        }
        if *byte == b'\n' {
            left -= 1;
        }
    }
    text
}

/// Runs the first script with a reader that fails after so many calls, each of which gives a byte.
fn assert_unread<H: Threads + Wait + Abort + AllocGlobal + Sync>(rt: &H, calls: usize) {
    let line = line_of_byte(FIRST_SCRIPT, calls);
    let fault = fault_text(rt, 46, line);
    let replies = lines_before(FIRST_REPLIES, line);
    let case = Case::stopped(
        "a reader that fails",
        FIRST_SCRIPT,
        replies,
        fault.as_bytes(),
    );
    let mut reader = Source::new(Pieces {
        rest: FIRST_SCRIPT,
        size: 1,
        calls,
    });
    let writer = Limited::with_room(rt.alloc(), usize::MAX);
    assert_played(rt, &case, &mut reader, writer, calls);
}

#[test]
fn ends_where_a_read_fails(rt: HostRuntime) {
    for calls in 0..=FIRST_SCRIPT.len() {
        assert_unread(&rt, calls);
    }
}

/// Runs as many bytes of the first script. It has a fault where that is a part of a line.
fn assert_cut<H: Threads + Wait + Abort + AllocGlobal + Sync>(rt: &H, script: &[u8]) {
    let line = line_of_byte(script, script.len());
    let fault = fault_text(rt, 41, line);
    let is_whole = matches!(script, [] | [.., b'\n']);
    let case = Case {
        name: "a script that is cut",
        arguments: &[],
        script,
        replies: lines_before(FIRST_REPLIES, line),
        faults: if is_whole { b"" } else { fault.as_bytes() },
        status: u8::from(!is_whole),
    };
    assert_read(rt, &case, script.len());
}

#[test]
fn ends_where_a_script_is_cut(rt: HostRuntime) {
    for size in 0..FIRST_SCRIPT.len() {
        assert_cut(&rt, &FIRST_SCRIPT[..size]);
    }
}

/// Runs the first script with a writer that has room for a part of the replies, and then fails or takes nothing.
fn assert_stuck<H: Threads + Wait + Abort + AllocGlobal + Sync>(rt: &H, writer: Limited) {
    let room = writer.room;
    let fault = fault_text(rt, 47, line_of_byte(FIRST_REPLIES, room));
    let replies = FIRST_REPLIES.get(..room).unwrap_or(b"");
    let case = Case::stopped(
        "a writer that fails",
        FIRST_SCRIPT,
        replies,
        fault.as_bytes(),
    );
    assert_played(rt, &case, &mut Text::new(FIRST_SCRIPT), writer, room);
}

#[test]
fn ends_where_a_write_fails(rt: HostRuntime) {
    for room in 0..FIRST_REPLIES.len() {
        for size in [1, 3, 4096] {
            for full in [Full::Fails, Full::TakesNothing] {
                let bytes = Vec::new(rt.alloc());
                assert_stuck(
                    &rt,
                    Limited {
                        bytes,
                        room,
                        size,
                        full,
                    },
                );
            }
        }
    }
}

#[test]
fn names_the_line_of_during_for_a_round_that_is_not_taken(rt: HostRuntime) {
    let script = b"zone 0 1\nmap 0 0 0\nduring 0\nload 0 0 0 0\nend\ninfo 0\n";
    for (room, line) in [(2, 1), (3, 2), (6, 4), (13, 4), (14, 3), (50, 3)] {
        let writer = Limited::with_room(rt.alloc(), room);
        let found = played(&rt, &[], &mut Text::new(script), writer);
        let fault = fault_text(&rt, 47, line);
        let is_named = found.faults.as_slice() == fault.as_bytes();
        assert!(rt;
            is_named && found.replies.len() == room,
            "room for {room} bytes"
        );
    }
}

/// Arguments, a script and the status that they end with.
const ENDINGS: [(&[&str], &[u8], u8); 4] = [
    (&[], b"", 0),
    (&[], b"map", 1),
    (&["--copiers", "5"], b"", 2),
    (&["--help"], b"", 0),
];

#[test]
fn keeps_its_status_where_a_fault_is_not_written(rt: HostRuntime) {
    for (arguments, script, status) in ENDINGS {
        let found = program(
            &rt,
            rt.alloc(),
            Ok(words_of(&rt, arguments)),
            &mut Text::new(script),
            &mut Sink::new(Limited::with_room(rt.alloc(), 0)),
            &mut Sink::new(Limited::with_room(rt.alloc(), 0)),
        );
        assert!(rt; found == status, "{arguments:?}");
    }
}
