use super::gates::{Plan, Until, Watch};
use super::opening::Opened;
use super::{Runtime, Trial, tries};
use frame_core::{FrameNo, Order};
use huge_core::{Collector, Huge, Report, Stop, give};
use round_core::{Gate, NoGate, Point, ZoneIdentity};
use std::process::Abort;
use std::sync::Wait;
use zone_core::{Opening, ZoneError};

const PAGES: u32 = 200;

/// The last block that was got.
fn last_block(rt: &impl Abort, mut report: Report) -> Huge {
    let Some(Some(huge)) = report.got.pop() else {
        panic!(rt; "no block is got");
    };
    huge
}

/// A collector of blocks of an order, with so many copiers and so much room, that may run so many rounds.
pub fn collector(
    rt: &impl Abort,
    copiers: usize,
    cap: usize,
    rounds: u32,
    order: u32,
) -> Collector {
    assert!(rt; 0 < copiers && copiers <= 4 && 0 < cap && cap <= 64 && rounds <= 16);
    let order = Order::new(order).expect(rt, "an order");
    Collector {
        copiers,
        cap,
        rounds,
        order,
    }
}

/// The first of 256 frames of pageblock 1.
fn assert_is_in_block_1(rt: &impl Abort, huge: &Huge) {
    assert!(rt; (huge.frame().get(), huge.order().get(), huge.block().get()) == (512, 8, 1));
}

/// One round was run, and no block was got.
fn assert_got_none(rt: &impl Abort, report: &Report) {
    assert!(rt; report.got.is_empty() && report.rounds == 1);
    assert!(rt; report.stop == Stop::Rounds);
}

impl<Z: Opening + ZoneIdentity + Send + Sync> Opened<Z> {
    /// What a collector reserves: `n` blocks, if it can.
    pub fn reserved<G: Gate, R: Runtime>(
        &mut self,
        rt: &R,
        collector: &Collector,
        n: usize,
        gate: &G,
    ) -> Report {
        assert!(rt; 0 < n && n <= 8);
        collector.reserve(rt, rt.alloc(), &self.shared.zone, &mut self.seats, n, gate)
    }

    /// A collector that may run one round runs it, with the threads that a gate holds, and gets no block. So many pages are isolated
    /// when the gate lets the first thread go.
    pub fn collects<R: Runtime>(&mut self, rt: &R, collector: &Collector, plan: Plan, ahead: u64) {
        self.fill(rt, PAGES);
        let watch = Watch::by(plan);
        assert_got_none(rt, &self.reserved(rt, collector, 1, &watch));
        watch.assert_let_go(rt);
        assert!(rt; watch.ahead() == ahead, "not {ahead} ahead");
    }

    /// The last of so many blocks of 256 frames.
    fn last_reserved<R: Runtime>(&mut self, rt: &R, n: usize) -> Huge {
        let collector = collector(rt, 2, 8, 16, 8);
        last_block(rt, self.reserved(rt, &collector, n, &NoGate))
    }

    /// A block is told by its frame, its order and its pageblock. It is free again once it was given back, and one that the zone
    /// refuses is handed back as it was.
    pub fn gives_back<R: Runtime>(&mut self, rt: &R) {
        self.fill(rt, 1);
        let mut huge = self.last_reserved(rt, 2);
        self.keeps_words(rt, &mut huge);
        assert_is_in_block_1(rt, &huge);
        self.writes_alone(rt, &mut huge);
        assert!(rt; give(rt, &self.shared.zone, huge).is_ok());
        let (before, _records) = self.told(rt);
        assert!(rt; (before.free, before.pages, before.huge, before.held) == (767, 1, 1, 256));
        self.hands_back(rt);
    }

    /// The journal has its last place for this block, so that its zone refuses to take it back.
    fn hands_back<R: Runtime>(&mut self, rt: &R) {
        let huge = self.last_reserved(rt, 1);
        let held = self.told(rt);
        let Err((error, huge)) = give(rt, &self.shared.zone, huge) else {
            panic!(rt; "the block is taken back");
        };
        assert!(rt; error == ZoneError::JournalFull);
        assert!(rt; self.told(rt) == held);
        let (frame, order) = huge.into_parts();
        assert!(rt; (frame.get(), order.get()) == (512, 8));
    }

    /// Three words of a block from one on, or nines where they can't be read.
    fn read<R: Wait>(&self, rt: &R, huge: &Huge, from: usize) -> (Result<(), ZoneError>, [u64; 3]) {
        let mut words = [9; 3];
        let read = huge.read(rt, &self.shared.zone, from, &mut words);
        (read, words)
    }

    /// The words of each frame, one after the other.
    fn assert_has_words<R: Wait + Abort>(&self, rt: &R, wanted: &[u64]) {
        let first = FrameNo::new(0).expect(rt, "a frame");
        let room = self.shared.zone.lock(rt);
        let zone = room.zone();
        assert!(rt; zone.blocks() == 2 && first.get() == 0);
        let words = zone.words();
        assert!(rt; words.lends_none());
        let words = words.block(first, 1024);
        assert!(rt; words.len() == wanted.len());
        for at in 0..words.len() {
            assert!(rt;
                words.get(at).copied() == wanted.get(at).copied(),
                "word {at}"
            );
        }
    }

    /// What is written in the middle of the block of the frames 512 to 767 changes no other word, of whatever frame.
    fn writes_alone<R: Wait + Abort>(&self, rt: &R, huge: &mut Huge) {
        let mut wanted = [0; 8192];
        for at in 0..2048usize {
            wanted[4096 + at] = at as u64 + 1;
        }
        assert!(rt; huge.write(rt, &self.shared.zone, 0, &wanted[4096..6144]) == Ok(()));
        self.assert_has_words(rt, &wanted);
        assert!(rt; huge.write(rt, &self.shared.zone, 1001, &[0, u64::MAX]) == Ok(()));
        wanted[5097] = 0;
        wanted[5098] = u64::MAX;
        self.assert_has_words(rt, &wanted);
    }

    /// The words of a fresh block of 256 frames are kept. Those past its last one are refused, and nothing is read or written then.
    fn keeps_words<R: Wait + Abort>(&self, rt: &R, huge: &mut Huge) {
        let last = 256 * 8 - 1;
        assert!(rt; huge.write(rt, &self.shared.zone, last - 1, &[5, 6]) == Ok(()));
        assert!(rt; huge.write(rt, &self.shared.zone, last, &[7, 8]) == Err(ZoneError::Range));
        assert!(rt; self.read(rt, huge, last - 1) == (Err(ZoneError::Range), [9; 3]));
        assert!(rt; self.read(rt, huge, last - 2) == (Ok(()), [0, 5, 6]));
    }
}

#[test]
fn a_block_is_given_back_or_handed_back(rt: HostRuntime) {
    tries(&rt, 2, Some(5), Trial::GivesBack);
}

/// While the committer is held, pages are in five places of a round that has one copier: with the scanner, in the first queue, with
/// the copier, in the second queue and with the committer. Up to eight, each has as many as there is room for. With room for nine, the
/// scanner isolates nine pages at once, which make a batch of eight and one of one, and a queue holds one batch. While the copier is
/// held, pages are in the first three places alone.
#[test]
fn a_collector_isolates_as_far_ahead_as_it_has_room(rt: HostRuntime) {
    let rooms = [
        (Point::Ended, 1, 5),
        (Point::Ended, 3, 15),
        (Point::Ended, 8, 40),
        (Point::Ended, 9, 27),
        (Point::Taken, 9, 18),
        (Point::Taken, 64, 128),
    ];
    for (point, room, ahead) in rooms {
        let until = Until::pages(ahead, Point::Isolated);
        let plan = Plan::HoldsFirst(point, until);
        let collector = collector(&rt, 1, room, 1, 9);
        tries(&rt, 1, Some(999), Trial::Collects(&collector, plan, ahead));
    }
}

#[test]
fn a_collector_uses_each_of_its_copiers(rt: HostRuntime) {
    for copiers in 1..5usize {
        let plan = Plan::HoldsAllButTheLast(copiers as u64, u64::from(PAGES));
        let collector = collector(&rt, copiers, 1, 1, 9);
        tries(&rt, 1, Some(999), Trial::Collects(&collector, plan, 0));
    }
}
