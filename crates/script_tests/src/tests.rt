mod alone;
mod cases;
mod fakes;
mod scripts;
mod streams;
mod words;

use cases::Case;
use fakes::{Limited, Pieces};
use script_core::{Input, Sink, Source, program};
use std::env::Args;
use std::process::Abort;
use std::sync::Wait;
use std::thread::Threads;

/// What came of a run.
#[derive(Drop)]
struct Outcome {
    replies: Vec<u8>,
    faults: Vec<u8>,
    status: u8,
}

impl Outcome {
    /// What isn't as the case has it.
    fn difference(&self, case: &Case<'_>) -> Option<&'static str> {
        if self.replies.as_slice() != case.replies {
            Some("other replies")
        } else if self.faults.as_slice() != case.faults {
            Some("another fault")
        } else if self.status != case.status {
            Some("another status")
        } else {
            None
        }
    }
}

/// The words that the program is started with.
fn words_of(rt: &(impl Abort + AllocGlobal), arguments: &[&str]) -> Args {
    let mut words = Vec::new(rt.alloc());
    for word in ["compactd"].iter().chain(arguments.iter()) {
        words.push(text_of(rt, word)).expect(rt, "memory");
    }
    words.into_iter()
}

fn text_of(rt: &(impl Abort + AllocGlobal), text: &str) -> String {
    String::from_str(rt.alloc(), text).expect(rt, "memory")
}

/// Runs the program.
fn played<R: Input, H: Threads + Wait + Abort + AllocGlobal + Sync>(
    rt: &H,
    arguments: &[&str],
    reader: &mut R,
    writer: Limited,
) -> Outcome {
    let mut replies = Sink::new(writer);
    let mut faults = Sink::new(Vec::new(rt.alloc()));
    let status = program(
        rt,
        rt.alloc(),
        Ok(words_of(rt, arguments)),
        reader,
        &mut replies,
        &mut faults,
    );
    Outcome {
        replies: replies.into_inner().bytes,
        faults: faults.into_inner(),
        status,
    }
}

/// Runs a case over a reader of its script, with a writer of its replies. A failure tells the case, and the number of bytes that was tried.
fn assert_played<R: Input, H: Threads + Wait + Abort + AllocGlobal + Sync>(
    rt: &H,
    case: &Case<'_>,
    reader: &mut R,
    writer: Limited,
    bytes: usize,
) {
    let found = played(rt, case.arguments, reader, writer);
    if let Some(difference) = found.difference(case) {
        panic!(rt; "{}, {bytes} bytes: {difference}", case.name);
    }
}

/// Runs a case, whose script is read in pieces of so many bytes.
fn assert_read<H: Threads + Wait + Abort + AllocGlobal + Sync>(
    rt: &H,
    case: &Case<'_>,
    size: usize,
) {
    let mut reader = Source::new(Pieces::of(case.script, size));
    let writer = Limited::with_room(rt.alloc(), usize::MAX);
    assert_played(rt, case, &mut reader, writer, size);
}
