//! Rows are lent, cut, halved, held and taken back.

ghost use Rattle.std.specs.Prelude.{◌≡◌, ◌+◌, ◌^◌, ◌<◌, length};
ghost use Rattle.row_core.specs.Parts.{AreHere};

use row_core::{Ground, Half, HeldWords, Row};
use std::alloc::Global;
use std::process::Abort;

/// A value of these types may be read by several threads, and go from one to another.
fn crosses<T: Send + Sync>(_value: &T) {}

/// Two rows of this size are lent, copied, halved and taken back.
#[tactic(auto, using(row_core::proofs::Lists::part_here))]
fn lend_two(rt: &impl Abort, alloc: Global, size: usize)
    requires { size < 2 ^ 16 }
{
    let mut ground = Ground::open(alloc, size + size).expect(rt, "memory");
    let (mut source, mut target) = ground.lend(0, size + size).cut(size);
    source.words_mut().fill(7);
    assert!(rt; !target.equals(&source), "a row is blank");
    target.copy_from(&source);
    assert!(rt; target.equals(&source), "a row is copied");
    crosses::<Row>(&source);
    let (first, second) = target.halve();
    assert!(rt;
        first.words() == second.words(),
        "both halves have the words"
    );
    crosses::<Half>(&first);
    ground.take_back(0, source.join(first.rejoin(second)));
    crosses::<Ground>(&ground);
    drop(ground);
}

#[test]
fn rows_of_each_size_come_back(rt: HostRuntime) {
    for size in [1, 8, 64, 512] {
        lend_two(&rt, rt.alloc(), size);
    }
}

/// Half of a ground's words are given to another ground, which clears them and gives them back.
#[tactic(auto, using(row_core::proofs::Lists::part_here))]
fn give_half(rt: &impl Abort, alloc: Global, size: usize)
    requires { size < 2 ^ 16 }
{
    let mut ground = Ground::open(alloc, size + size).expect(rt, "memory");
    let mut half = ground.lend(size, size);
    half.words_mut().fill(7);
    let mut given = Ground::over(half);
    given.clear(0, size);
    let half = given.end().expect(rt, "a row that was given");
    assert!(rt;
        half.words().iter().all(|word| *word == 0),
        "a part is cleared"
    );
    ground.take_back(size, half);
}

#[test]
fn words_are_held_and_become_a_row_again(rt: HostRuntime) {
    assert!(&rt; HeldWords::none().into_row().is_none());
    let mut ground = Ground::open(rt.alloc(), 8).expect(&rt, "memory");
    let mut row = ground.lend(0, 8);
    row.words_mut().fill(7);
    let row = HeldWords::of(row).into_row().expect(&rt, "words");
    ground.take_back(0, row);
    assert!(&rt; ground.part(0, 8).iter().all(|word| *word == 7));
}

#[test]
fn rows_that_are_given_come_back(rt: HostRuntime) {
    for size in [0, 1, 8, 64, 512] {
        give_half(&rt, rt.alloc(), size);
    }
}

/// A part of this size is changed, and copied into the part after it.
#[tactic(auto, using(row_core::proofs::Lists::part_here))]
fn copy_one(ground: &mut Ground, size: usize)
    requires small { size < 2 ^ 16 }
    requires words { length ground.old.words ≡ size + size }
    requires here { AreHere ground.old.here (size + size) }
{
    ground.copy_within(0, size, size);
}

#[test]
fn a_part_is_copied(rt: HostRuntime) {
    for size in [0, 1, 8, 64, 512] {
        let mut ground = Ground::open(rt.alloc(), size + size).expect(&rt, "memory");
        copy_one(&mut ground, size);
    }
}

#[test]
fn a_thousand_grounds_are_opened_and_closed(rt: HostRuntime) {
    for place in 0..1_000 {
        let ground = Ground::open(rt.alloc(), 8).expect(&rt, "memory");
        if place % 2 == 0 {
            ground.end();
        }
    }
}
