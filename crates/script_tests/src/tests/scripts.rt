use super::assert_read;
use super::cases::{
    Case, FAULTS, blocks, clients, lines, moves, pages, pools, profiles, rounds, stopped_rounds,
    wrong_blocks,
};
use std::process::Abort;
use std::sync::Wait;
use std::thread::Threads;

/// Runs each case.
fn assert_answered<H: Threads + Wait + Abort + AllocGlobal + Sync>(rt: &H, cases: &[Case<'_>]) {
    for case in cases {
        assert_read(rt, case, case.script.len());
    }
}

#[test]
fn answers_each_script(rt: HostRuntime) {
    assert_answered(&rt, lines());
    assert_answered(&rt, pages());
    assert_answered(&rt, moves());
    assert_answered(&rt, blocks());
    assert_answered(&rt, profiles());
}

#[test]
fn answers_rounds_and_pools(rt: HostRuntime) {
    assert_answered(&rt, rounds());
    assert_answered(&rt, stopped_rounds());
    assert_answered(&rt, pools());
}

#[test]
fn answers_each_block(rt: HostRuntime) {
    assert_answered(&rt, clients());
    assert_answered(&rt, wrong_blocks());
}

#[test]
fn refuses_lines_that_are_no_command(rt: HostRuntime) {
    for line in &FAULTS {
        let script = format!(in rt.alloc(); "{line}\ninfo 0\n").expect(&rt, "memory");
        let fault = b"compactd: fault 41 at line 1\n";
        let case = Case::stopped(line, script.as_bytes(), b"", fault);
        assert_read(&rt, &case, script.len());
    }
}
