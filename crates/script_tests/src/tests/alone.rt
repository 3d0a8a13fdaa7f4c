//! The machine on one thread, which runs no rounds, beside the program.

use super::assert_read;
use super::cases::{Case, NOTHING};
use super::fakes::Pieces;
use script_core::{Options, RunError, Sink, Source, Totals, run, run_text};
use std::process::Abort;

const OPTIONS: Options = Options {
    copiers: 2,
    capacity: 8,
    journal: 65536,
};

/// A script, its replies on one thread, and those of the program.
struct Row {
    name: &'static str,
    script: &'static [u8],
    alone: &'static [u8],
    on_threads: &'static [u8],
}

static ROWS: [Row; 6] = [
    Row {
        name: "a pool of pageblocks",
        script: b"zone 0 3\npool 0 2\npool 0 2\npool 0 9\n",
        alone: b"ok\ngot=2 rounds=0 stopped=enough blocks=0,1\ngot=1 rounds=0 stopped=32 blocks=2\nrefused 1\n",
        on_threads: b"ok\ngot=2 rounds=0 stopped=enough blocks=0,1\ngot=1 rounds=1 stopped=noblock blocks=2\nrefused 1\n",
    },
    Row {
        name: "a pool of half pageblocks",
        script: b"profile 2\nzone 0 2\nmapat 0 0 0 0\nmapat 0 0 1 512\npool 0 2 8\npool 0 1\ngive 0 768 8\n",
        alone: b"ok\nok\nok\nok\ngot=2 rounds=0 stopped=enough frames=256,768\ngot=0 rounds=0 stopped=32 blocks=-\nok\n",
        on_threads: b"ok\nok\nok\nok\ngot=2 rounds=0 stopped=enough frames=256,768\ngot=0 rounds=2 stopped=noblock blocks=-\nok\n",
    },
    Row {
        name: "a pool of one block more than there is",
        script: b"profile 2\nzone 0 1\npool 0 2 9\npool 0 1 2\n",
        alone: b"ok\nok\ngot=1 rounds=0 stopped=32 frames=0\nrefused 1\n",
        on_threads: b"ok\nok\ngot=1 rounds=1 stopped=noblock frames=0\nrefused 1\n",
    },
    Row {
        name: "no pool beside a round that is open by hand",
        script: b"pool 0 1\nzone 0 2\npool 1 1\nscan 0\npool 0 1\nshut 0\nmapat 0 0 0 0\npool 0 2\n",
        alone: b"refused 43\nok\nrefused 43\nmet\nrefused 45\nback=0\nok\ngot=1 rounds=0 stopped=32 blocks=1\n",
        on_threads: b"refused 43\nok\nrefused 43\nmet\nrefused 45\nback=0\nok\ngot=1 rounds=2 stopped=noblock blocks=1\n",
    },
    Row {
        name: "a round",
        script: b"zone 0 2\nmap 0 0 0\ncompact 0\nscan 0\ncompact 0\nlook 0 0 0\n",
        alone: b"ok\nok\nrefused 32\nserial=0\nrefused 45\nmoving serial=0 pins=0 maps=1\n",
        on_threads: b"ok\nok\nisolated=1 moved=1 back=0 stopped=met\nmet\nrefused 45\nframe=1023 dirty=0 unmovable=0 pins=0 maps=1\n",
    },
    Row {
        name: "a block",
        script: b"zone 0 1\nmap 0 0 0 unmovable\nduring 0\npin 0 0 0\nend\nlook 0 0 0\n",
        alone: b"ok\nok\nrefused 32\nframe=0 dirty=0 unmovable=1 pins=0 maps=1\n",
        on_threads: b"ok\nok\nok\nisolated=0 moved=0 back=0 stopped=met\nframe=0 dirty=0 unmovable=1 pins=1 maps=1\n",
    },
];

fn lines_of(text: &[u8]) -> u64 {
    text.iter().filter(|byte| **byte == b'\n').count() as u64
}

/// What was written on one thread, and what the run ended with, is what the row says.
fn assert_alone(rt: &impl Abort, row: &Row, sink: Sink<Vec<u8>>, ended: Result<Totals, RunError>) {
    let totals = Totals {
        lines: lines_of(row.script),
        replies: lines_of(row.alone),
    };
    assert!(rt; ended == Ok(totals), "{}", row.name);
    assert!(rt; sink.into_inner().as_slice() == row.alone, "{}", row.name);
}

#[test]
fn answers_on_one_thread(rt: HostRuntime) {
    for row in &ROWS {
        let mut sink = Sink::new(Vec::new(rt.alloc()));
        let ended = run_text(rt.alloc(), row.script, &mut sink, OPTIONS);
        assert_alone(&rt, row, sink, ended);
        let mut source = Source::new(Pieces::of(row.script, 7));
        let mut sink = Sink::new(Vec::new(rt.alloc()));
        let ended = run(rt.alloc(), &mut source, &mut sink, OPTIONS);
        assert_alone(&rt, row, sink, ended);
    }
}

#[test]
fn pools_where_there_are_threads(rt: HostRuntime) {
    for row in &ROWS {
        let case = Case {
            name: row.name,
            script: row.script,
            replies: row.on_threads,
            ..NOTHING
        };
        assert_read(&rt, &case, row.script.len());
    }
}
