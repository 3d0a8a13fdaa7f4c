use super::tally::Tally;
use round_core::{Gate, Point};
use std::process::Abort;
use std::sync::atomic::{AtomicU64, Ordering};
use std::thread::yield_now;

/// After so many turns a gate, or a client that waits, gives up, and the test fails. On a busy machine a thread may get its turn after
/// milliseconds alone, and some wait for hundreds of turns of others.
const TURNS: u32 = 20_000_000;

/// Lets other threads run for so many turns.
pub fn linger(turns: u32) {
    for _turn in 0..turns {
        yield_now();
    }
}

/// At least so many pages came to a point, and clients have spoken so often.
#[derive(Clone, Copy)]
pub struct Until {
    pub pages: u64,
    pub point: Point,
    pub spoken: u64,
}

impl Until {
    /// A copy is made.
    pub const COPIED: Until = Until {
        pages: 1,
        point: Point::Copied,
        spoken: 0,
    };

    /// So many pages came to a point.
    pub fn pages(pages: u64, point: Point) -> Until {
        Until {
            pages,
            point,
            spoken: 0,
        }
    }

    /// Clients have spoken so often.
    pub fn spoken(spoken: u64) -> Until {
        Until {
            pages: 0,
            point: Point::Isolated,
            spoken,
        }
    }
}

/// Which threads of a round a gate holds, and until when.
#[derive(Clone, Copy)]
pub enum Plan {
    HoldsNone,
    /// The first thread that comes to a point.
    HoldsFirst(Point, Until),
    /// The first copier with each of its pages.
    HoldsFirstCopier(Until),
    /// Of so many copiers all but the last to come, each with its first of so many pages. Once all other pages have ended they are
    /// let go, one after the other, in the order in which they came.
    HoldsAllButTheLast(u64, u64),
}

/// Notes each step of a page, and holds threads by a plan. A thread that is let go waits some turns more, in which others could come.
#[derive(Drop)]
pub struct Watch {
    plan: Plan,
    /// How many pages came to each point, as the thread told whose step it is.
    pub told: Tally,
    /// How many pages each copier took.
    pub taken: Tally,
    /// As which of the threads that are held each copier came, from 1 on.
    pub turns: Tally,
    /// How many threads came to be held.
    came: AtomicU64,
    spoken: AtomicU64,
    /// How many pages were isolated when the first thread was let go.
    ahead: AtomicU64,
    held_in_vain: AtomicU64,
}

impl Watch {
    pub fn by(plan: Plan) -> Watch {
        Watch {
            plan,
            told: Tally::zeros(),
            taken: Tally::zeros(),
            turns: Tally::zeros(),
            came: AtomicU64::new(0),
            spoken: AtomicU64::new(0),
            ahead: AtomicU64::new(0),
            held_in_vain: AtomicU64::new(0),
        }
    }

    /// A client tells that it waits, or that its call was answered.
    pub fn speak(&self) {
        self.spoken.fetch_add(1, Ordering::SeqCst);
    }

    fn has_come_to(&self, until: Until) -> bool {
        self.told.of(until.point) >= until.pages
            && self.spoken.load(Ordering::SeqCst) >= until.spoken
    }

    /// Whether it comes to what is waited for.
    fn comes_to(&self, until: Until) -> bool {
        for _turn in 0..TURNS {
            if self.has_come_to(until) {
                return true;
            }
            yield_now();
        }
        false
    }

    /// Waits as a client does.
    pub fn assert_comes_to(&self, rt: &impl Abort, until: Until) {
        assert!(rt; self.comes_to(until), "waited in vain");
    }

    fn hold(&self, until: Until) {
        if !self.comes_to(until) {
            self.held_in_vain.store(1, Ordering::SeqCst);
        }
        linger(1000);
    }

    /// One thread more came to be held. As which of them.
    fn come(&self) -> u64 {
        self.came.fetch_add(1, Ordering::SeqCst).saturating_add(1)
    }

    /// Holds the first thread that came to a point.
    fn hold_first(&self, until: Until) {
        self.come();
        self.hold(until);
        self.ahead
            .store(self.told.of(Point::Isolated), Ordering::SeqCst);
    }

    /// Holds a copier with its first page.
    fn hold_in_turn(&self, who: usize, copiers: u64, pages: u64) {
        let came = self.come();
        self.turns.add(who, came);
        let ended = if came < copiers {
            pages.saturating_add(came).saturating_sub(copiers)
        } else {
            0
        };
        self.hold(Until::pages(ended, Point::Ended));
    }

    /// How many pages were isolated when the first thread was let go.
    pub fn ahead(&self) -> u64 {
        self.ahead.load(Ordering::SeqCst)
    }

    /// Each thread that was to be held came, and none was held in vain.
    pub fn assert_let_go(&self, rt: &impl Abort) {
        let wanted = match self.plan {
            Plan::HoldsNone => 0,
            Plan::HoldsFirst(..) => 1,
            Plan::HoldsFirstCopier(_) => self.taken.number(1),
            Plan::HoldsAllButTheLast(copiers, _) => copiers,
        };
        assert!(rt; self.came.load(Ordering::SeqCst) == wanted);
        assert!(rt; self.held_in_vain.load(Ordering::SeqCst) == 0);
    }

    /// Holds a thread that made a step, if the plan says so. So many pages came to that point before, and the copier took so many.
    fn hold_by_plan(&self, point: Point, who: usize, before: u64, taken: u64) {
        match self.plan {
            Plan::HoldsFirst(held, until) if point == held && before == 0 => {
                self.hold_first(until)
            }
            Plan::HoldsFirstCopier(until) if point == Point::Taken && who == 1 => {
                self.come();
                self.hold(until);
            }
            Plan::HoldsAllButTheLast(copiers, pages) if point == Point::Taken && taken == 0 => {
                self.hold_in_turn(who, copiers, pages)
            }
            _ => {}
        }
    }
}

/// Whether a thread with this number makes this step.
fn makes(who: usize, point: Point) -> bool {
    match point {
        Point::Isolated => who == 0,
        Point::Taken | Point::Copied => 0 < who && who < 5,
        Point::Ended => who == 5,
    }
}

impl Gate for Watch {
    fn at(&self, point: Point, who: usize) {
        if !makes(who, point) {
            return;
        }
        let before = self.told.add(point as usize, 1);
        let taken = self.taken.add(who, u64::from(point == Point::Taken));
        self.hold_by_plan(point, who, before, taken);
    }
}
