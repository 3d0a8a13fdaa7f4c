use super::beside::Scene;
use super::calls::{Answer, Call};
use super::gates::{Plan, Until};
use super::jobs::Job;
use super::{Trial, tries};
use round_core::Point;

/// Two copiers move two pages.
pub const TWO_PAGES: Scene = Scene {
    pages: 2,
    before: &[],
    plan: Plan::HoldsNone,
    copiers: 2,
    rounds: 1,
    jobs: &[],
    spoken: 0,
    counts: (2, 2, 0),
};

/// The first page that is taken is held until the other has ended.
const TWO_COPIERS: Scene = Scene {
    plan: Plan::HoldsFirst(
        Point::Taken,
        Until {
            pages: 1,
            point: Point::Ended,
            spoken: 0,
        },
    ),
    ..TWO_PAGES
};

/// The first copy is held until the other page has ended and a client's load of a third page is answered. That page and a fourth can't
/// move.
const TWO_IN_HAND: Scene = Scene {
    before: &[
        (Call::MapUnmovable(2), Answer::Frame(2)),
        (Call::MapAtUnmovable(3, 3), Answer::Done),
    ],
    plan: Plan::HoldsFirst(
        Point::Copied,
        Until {
            pages: 1,
            point: Point::Ended,
            spoken: 1,
        },
    ),
    jobs: &[Job::Calls(Call::Load(2, 7), Answer::Value(0))],
    spoken: 1,
    ..TWO_PAGES
};

/// One copier moves a page, and its copy is held until a client has pinned the page.
const PINNED: Scene = Scene {
    pages: 1,
    before: &[(Call::Store(0, 7, 5), Answer::Done)],
    plan: Plan::HoldsFirst(
        Point::Copied,
        Until {
            spoken: 1,
            ..Until::COPIED
        },
    ),
    copiers: 1,
    jobs: &[Job::Calls(Call::Pin(0), Answer::Done)],
    spoken: 1,
    counts: (1, 0, 1),
    ..TWO_PAGES
};

/// The copy is held until a client waits for the page.
const WAITED_FOR: Scene = Scene {
    spoken: 2,
    counts: (1, 1, 0),
    ..PINNED
};

/// The copy is held until two clients wait for the page.
const WAITED_FOR_TWICE: Scene = Scene {
    plan: Plan::HoldsFirst(
        Point::Copied,
        Until {
            spoken: 2,
            ..Until::COPIED
        },
    ),
    spoken: 4,
    ..WAITED_FOR
};

/// Two copiers move 64 pages, and two more rounds move nothing. Two clients share the first page, each by an address of its own.
const SHARED_PAGE: Scene = Scene {
    pages: 64,
    before: &[(Call::Share(0, 99), Answer::Done)],
    rounds: 3,
    jobs: &[Job::StoresAndLoads(0, 1), Job::StoresAndLoads(99, 2)],
    counts: (64, 64, 0),
    ..TWO_PAGES
};

const ALL_WORDS: Scene = Scene {
    before: &[],
    jobs: &[Job::WritesAndReads(1000), Job::WritesAndReads(2000)],
    ..SHARED_PAGE
};

/// Each client has two words in each page, and the round has four copiers.
const FOUR_CLIENTS: Scene = Scene {
    before: &[],
    copiers: 4,
    rounds: 1,
    jobs: &[
        Job::UsesWords(0, 1),
        Job::UsesWords(2, 3),
        Job::UsesWords(4, 5),
        Job::UsesWords(6, 7),
    ],
    ..SHARED_PAGE
};

/// A client whose call waits for the page.
const WAITING: [&[Job]; 6] = [
    &[LOADS],
    &[Job::SpeaksAndCalls(Call::Store(0, 7, 6), Answer::Done)],
    &[Job::SpeaksAndCalls(Call::Read(0, 0), Answer::Values([0, 0, 0, 0, 0, 0, 0, 5]))],
    &[Job::SpeaksAndCalls(Call::Write(0, 0, 6), Answer::Done)],
    &[SHARES],
    &[Job::SpeaksAndCalls(Call::Unmap(0), Answer::Done)],
];

/// Two clients that wait for the page.
const BOTH_WAITING: [&[Job]; 5] = [
    &[Job::WaitsByHand, Job::WaitsByHand],
    &[Job::WaitsByHand, LOADS],
    &[LOADS, LOADS],
    &[LOADS, STORES],
    &[STORES, SHARES],
];

const LOADS: Job = Job::SpeaksAndCalls(Call::Load(0, 7), Answer::Value(5));

const STORES: Job = Job::SpeaksAndCalls(Call::Store(0, 6, 9), Answer::Done);

const SHARES: Job = Job::SpeaksAndCalls(Call::Share(0, 1), Answer::Done);

/// Each page that a round moves takes two places of the journal, and mapping it took one.
#[test]
fn a_round_moves_what_the_journal_has_room_for(rt: HostRuntime) {
    for places in 1..41u32 {
        let pages = places.min(10);
        let count = (places.saturating_sub(pages) / 2).min(pages);
        let scene = Scene {
            pages,
            counts: (u64::from(count), u64::from(count), 0),
            ..TWO_PAGES
        };
        tries(&rt, 1, Some(places), Trial::Plays(&scene));
    }
}

#[test]
fn gate_two_copiers(rt: HostRuntime) {
    tries(&rt, 1, Some(99), Trial::Plays(&TWO_COPIERS));
}

#[test]
fn gate_two_in_hand(rt: HostRuntime) {
    tries(&rt, 1, Some(99), Trial::Plays(&TWO_IN_HAND));
}

#[test]
fn a_page_that_a_client_pins_is_put_back(rt: HostRuntime) {
    tries(&rt, 1, Some(99), Trial::Plays(&PINNED));
}

#[test]
fn a_client_waits_for_a_page_on_its_way(rt: HostRuntime) {
    for jobs in WAITING {
        let scene = Scene { jobs, ..WAITED_FOR };
        tries(&rt, 1, Some(99), Trial::Plays(&scene));
    }
}

#[test]
fn both_threads_that_wait_for_a_page_are_woken(rt: HostRuntime) {
    for jobs in BOTH_WAITING {
        let scene = Scene {
            jobs,
            ..WAITED_FOR_TWICE
        };
        tries(&rt, 1, Some(99), Trial::Plays(&scene));
    }
}

#[test]
fn two_clients_share_a_page_that_moves(rt: HostRuntime) {
    tries(&rt, 1, Some(65536), Trial::Plays(&SHARED_PAGE));
}

#[test]
fn two_clients_use_all_words_of_a_page_that_moves(rt: HostRuntime) {
    tries(&rt, 1, Some(65536), Trial::Plays(&ALL_WORDS));
}

#[test]
fn four_clients_find_what_they_stored(rt: HostRuntime) {
    tries(&rt, 1, Some(65536), Trial::Plays(&FOUR_CLIENTS));
}
