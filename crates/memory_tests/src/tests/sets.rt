//! Sets beside tables that say of each number whether it is a member, in which a search is a walk.

ghost use Rattle.std.specs.Prelude.{◌≡◌, ◌+◌, ◌%◌, ◌^◌, ◌<◌, ◌≤◌, length};

use number_set::NumberSet;
use std::alloc::Global;
use std::process::Abort;

/// Numbers that are drawn from a fixed seed.
#[derive(Drop)]
struct Draws {
    state: u64,
}

impl Draws {
    fn below(&mut self, bound: u32) -> u32
        requires { 0 < bound }
        ensures { result < bound }
    {
        self.state = self
            .state
            .wrapping_mul(6364136223846793005)
            .wrapping_add(1442695040888963407);
        (self.state >> 33) as u32 % bound
    }
}

/// The lowest member from one number on and below another.
fn lowest(table: &[bool], from: u32, bound: u32) -> Option<u32>
    requires { bound ≤ length table.now }
{
    for number in from..bound {
        if table[number as usize] {
            return Some(number);
        }
    }
    None
}

/// The highest member below a number.
fn highest(table: &[bool], bound: u32) -> Option<u32>
    requires { bound ≤ length table.now }
{
    for below in 0..bound {
        let number = bound - 1 - below;
        if table[number as usize] {
            return Some(number);
        }
    }
    None
}

/// The set answers what the table says, at this number and at both ends.
fn agree(rt: &impl Abort, set: &NumberSet, table: &[bool], bound: u32, number: u32)
    requires number { number < bound }
    requires table { length table.now ≡ bound }
    requires set { bound ≤ set.now.bound }
{
    assert!(rt; set.contains(number) == table[number as usize], "contains");
    assert!(rt; set.first() == lowest(table, 0, bound), "first");
    assert!(rt; set.last() == highest(table, bound), "last");
    assert!(rt;
        set.after(number) == lowest(table, number + 1, bound),
        "after"
    );
    assert!(rt; set.before(number) == highest(table, number), "before");
    assert!(rt;
        set.at_or_after(number) == lowest(table, number, bound),
        "at or after"
    );
}

/// Numbers are drawn, and put in or taken out where they were put in before. They lie in a few places, so that words fill
/// and become empty again.
fn change_and_ask(rt: &impl Abort, alloc: Global, bound: u32, steps: u32)
    requires bound { bound ≤ 16777216 }
    requires some { 1000 < bound }
{
    let mut set = NumberSet::open(alloc, bound).expect(rt, "memory");
    let mut table = Vec::from_elem(alloc, false, bound as usize).expect(rt, "memory");
    let mut draws = Draws { state: 1 };
    for _ in 0..steps {
        let number = draws.below(7) * (bound / 8) + draws.below(70);
        let was = set.contains(number);
        table[number as usize] = !was;
        if was {
            set.remove(number);
        } else {
            set.insert(number);
        }
        agree(rt, &set, &table, bound, number);
        let other = draws.below(bound);
        agree(rt, &set, &table, bound, other);
    }
}

#[test]
fn answers_as_a_table(rt: HostRuntime) {
    change_and_ask(&rt, rt.alloc(), 4_096, 1_000);
    change_and_ask(&rt, rt.alloc(), 300_000, 100);
}

/// The 2^order numbers from one on are taken out where the set has them all, and put in where it lacks one.
fn turn_and_ask(rt: &impl Abort, set: &mut NumberSet, table: &mut [bool], first: u32, order: u32)
    requires order { order ≤ 9 }
    requires aligned { first % 2 ^ order ≡ 0 }
    requires within { first + 2 ^ order ≤ length table.old }
    requires few { length table.old < 2 ^ 24 }
    requires set { length table.old ≤ set.old.bound }
    ensures set { set.new.bound ≡ set.old.bound }
    ensures table { length table.new ≡ length table.old }
{
    let had = set.has_run(first, order);
    let end = first + (1 << order);
    let run = &mut table[first as usize..end as usize];
    assert!(rt; had == run.iter().all(|member| *member), "run");
    assert!(rt;
        set.count_run(first, order) as usize == run.iter().filter(|member| **member).count(),
        "count"
    );
    assert!(rt;
        set.count_from(first, end - first) == set.count_run(first, order),
        "count from"
    );
    run.fill(!had);
    if had {
        set.remove_run(first, order);
    } else {
        set.insert_run(first, order);
    }
    let bound = table.len() as u32;
    agree(rt, set, table, bound, first);
    agree(rt, set, table, bound, end - 1);
}

/// Turns runs one after the other, each given by its first number and its order.
fn turn_each(rt: &impl Abort, set: &mut NumberSet, table: &mut [bool], runs: &[(u32, u32)])
    requires few { length table.old < 2 ^ 24 }
    requires set { length table.old ≤ set.old.bound }
    ensures set { set.new.bound ≡ set.old.bound }
    ensures table { length table.new ≡ length table.old }
{
    for run in runs {
        let (first, order) = *run;
        assert!(rt;
            order <= 9 && first % (1 << order) == 0,
            "a run begins there"
        );
        assert!(rt;
            first as usize + (1 << order) <= table.len(),
            "it ends within the table"
        );
        turn_and_ask(rt, set, table, first, order);
    }
}

/// A full set loses runs at the ends of words, and gets some of them back.
fn turn_word_ends(rt: &impl Abort, set: &mut NumberSet, table: &mut [bool])
    requires few { length table.old < 2 ^ 24 }
    requires set { length table.old ≤ set.old.bound }
    ensures set { set.new.bound ≡ set.old.bound }
    ensures table { length table.new ≡ length table.old }
{
    turn_each(rt, set, table, &[(63, 0), (0, 6), (0, 7), (0, 7), (63, 0)]);
    turn_each(rt, set, table, &[(96, 5), (0, 6), (0, 7)]);
    turn_each(
        rt,
        set,
        table,
        &[(3_584, 9), (4_032, 6), (4_032, 3), (4_088, 3)],
    );
}

#[test]
fn turns_runs(rt: HostRuntime) {
    let mut set = NumberSet::filled(rt.alloc(), 300_000).expect(&rt, "memory");
    let mut table = Vec::from_elem(rt.alloc(), true, 300_000).expect(&rt, "memory");
    turn_word_ends(&rt, &mut set, &mut table);
    let runs = [(4_096, 8), (261_632, 9), (262_144, 9), (299_968, 5)];
    turn_each(&rt, &mut set, &mut table, &runs);
}

#[test]
fn counts_small_runs(rt: HostRuntime) {
    let mut set = NumberSet::filled(rt.alloc(), 4_096).expect(&rt, "memory");
    let mut table = Vec::from_elem(rt.alloc(), true, 4_096).expect(&rt, "memory");
    turn_word_ends(&rt, &mut set, &mut table);
    for order in 0..3 {
        let runs = table
            .chunks_exact(1 << order)
            .filter(|run| run.iter().all(|member| *member));
        assert!(rt;
            set.count_runs(order) as usize == runs.count(),
            "runs of order"
        );
    }
}

#[test]
fn finds_what_three_sets_lack(rt: HostRuntime) {
    let mut first = NumberSet::filled(rt.alloc(), 256).expect(&rt, "memory");
    let mut second = NumberSet::open(rt.alloc(), 256).expect(&rt, "memory");
    let mut third = NumberSet::open(rt.alloc(), 256).expect(&rt, "memory");
    first.remove_run(64, 6);
    first.remove_run(128, 6);
    second.insert_run(64, 6);
    third.insert(128);
    third.insert(190);
    let found = [
        first.first_outside(&second, &third, 0, 256),
        first.first_outside(&second, &third, 0, 129),
        first.first_outside(&second, &third, 130, 131),
        first.first_outside(&second, &third, 190, 256),
        first.first_outside(&second, &third, 192, 256),
        first.first_outside(&second, &third, 300, 256),
    ];
    let wanted = [Some(129), None, Some(130), Some(191), None, None];
    assert!(rt; found == wanted, "outside of three sets");
}
