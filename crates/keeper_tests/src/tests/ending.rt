//! The end of a keeper's thread, and what it counted until then.

use super::pages::PAGES;
use super::{Meanwhile, Opening, assert_adds_up, tries};
use keeper_thread::{STACK_SIZE, Work};

/// A pageblock with 64 pages is to be emptied, and the other one has room for them. The journal has so many places, or is unrecorded.
fn opening(places: Option<u32>, stack_size: usize) -> Opening {
    Opening {
        blocks: 2,
        places,
        pages: 2 * PAGES,
        order: 9,
        ready: 1,
        stack_size,
    }
}

/// It is told before it works, while it works, and while it sleeps.
#[test]
fn a_thread_ends_when_it_is_told(rt: HostRuntime) {
    for meanwhile in [Meanwhile::Stops, Meanwhile::Works, Meanwhile::Sleeps] {
        let outcome = tries(&rt, opening(None, STACK_SIZE), 1, meanwhile);
        assert_adds_up(&rt, &outcome, 1);
        assert!(&rt; outcome.joined == Some(outcome.work), "it told what it did");
    }
}

/// It claims the pageblock, moves a page with each step, and rests. Where the journal has no place for a move, it is refused.
#[test]
fn a_thread_counts_what_it_does(rt: HostRuntime) {
    let rests = Work {
        wakes: 1,
        steps: 67,
        pages: 64,
        claimed: 1,
        rests: 2,
        refused: 0,
    };
    let is_refused = Work {
        wakes: 1,
        steps: 3,
        pages: 0,
        claimed: 1,
        rests: 0,
        refused: 2,
    };
    for (places, want) in [(None, rests), (Some(2 * PAGES), is_refused)] {
        let outcome = tries(&rt, opening(places, STACK_SIZE), 1, Meanwhile::SleepsAgain);
        assert_eq!(&rt; outcome.work, want);
        assert_adds_up(&rt, &outcome, 1);
    }
}

/// No thread has a stack as large as this. Then a take moves the pages.
#[test]
fn a_pool_goes_on_without_a_thread(rt: HostRuntime) {
    let outcome = tries(&rt, opening(None, usize::MAX), 1, Meanwhile::Takes);
    assert!(&rt; outcome.joined.is_none(), "no thread was started");
    assert!(&rt; outcome.taken == 64, "the take moved the pages");
    assert_eq!(&rt; outcome.work, Work::default());
    assert_adds_up(&rt, &outcome, 1);
}
