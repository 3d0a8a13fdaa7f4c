ghost use Rattle.std.specs.Prelude.{◌≡◌, ◌≢◌, ◌<◌, ◌≤◌, ◌++◌, ◌∷◌, [], true, false, IfSome, length, vec_len, vec_capacity};
ghost use Rattle.round_core.specs.Copying.{IsCarried, IsUnderWay};
ghost use Rattle.round_core.specs.Crews.{IsUnused, IsUnsent};

use crate::gate::{Gate, Point};
use crate::stack::stack;
use frame_core::{Copied, Isolated, Serial};
use hand_core::{Batch, DoneSender, Taker, Took};
use std::snapshot::Snapshot;
use std::sync::Wait;
use std::thread::{Promise, PromisedHandle, Scope, Threads};

/// What a copier hands back.
#[derive(Drop)]
pub struct Carried {
    pub taker: Taker,
    pub sender: DoneSender,
    /// The serials of the pages that it took.
    pub serials: Vec<Serial>,
    /// Whether it came to the end of its pages, and all of their copies were sent.
    pub whole: bool,
}

/// The body of a copier: it takes pages, copies them, and sends the copies. Copies of pages that were received together are sent
/// together, as many at once as a batch of its sender has at most. It has no zone. It stops early where an end of a queue is gone, or
/// where it takes a page while its list is full.
pub fn carry<G: Gate, R: Wait>(
    rt: &R,
    taker: Taker,
    sender: DoneSender,
    serials: Vec<Serial>,
    gate: &G,
    who: usize,
) -> Carried
    requires taker { IsUnused taker.hand_over taker }
    requires sender { IsUnsent sender }
    requires serials { serials.items ≡ [] }
    ensures { IsCarried taker sender result }
{
    let mut carried = Carried {
        taker,
        sender,
        serials,
        whole: false,
    };
    let mut copies = Batch::new();
    for _ in rt.forever() {
        if !carry_next(rt, &mut carried, &mut copies, gate, who) {
            return carried;
        }
    }
    unreachable!()
}

/// Takes the next page, copies it, and sends the copies unless another page is taken first. The answer is whether more may come.
fn carry_next<G: Gate, R: Wait>(
    rt: &R,
    carried: &mut Carried,
    copies: &mut Batch<Copied>,
    gate: &G,
    who: usize,
) -> bool
    requires way { IsUnderWay carried.old.taker carried.old.sender carried.old copies.old.items }
    ensures more { result ≡ true → IsUnderWay carried.old.taker carried.old.sender carried.new copies.new.items }
    ensures over { result ≡ false → IsCarried carried.old.taker carried.old.sender carried.new }
{
    let most = carried.sender.most();
    match carried.taker.take(rt) {
        Took::Page(page) => {
            gate.at(Point::Taken, who);
            if carried.serials.len() >= carried.serials.capacity() {
                return false;
            }
            copy_page(page, &mut carried.serials, copies);
            gate.at(Point::Copied, who);
            if takes_another(&carried.taker, copies, most) {
                return true;
            }
            carried.sender.send_all(rt, copies.take()).is_ok()
        }
        Took::End => {
            at_end(rt, carried);
            false
        }
        Took::Gone => false,
    }
}

/// Copies a page, and notes its serial.
fn copy_page(page: Isolated, serials: &mut Vec<Serial>, copies: &mut Batch<Copied>)
    requires serials { vec_len serials.old < vec_capacity serials.old }
    requires copies { length copies.old.items < 8 }
    ensures serials { serials.new.items ≡ serials.old.items ++ page.serial ∷ [] }
    ensures copies { copies.new.items ≡ copies.old.items ++ page ∷ [] }
{
    serials.push_reserved(page.serial());
    copies.push(page.copy_into_new());
}

/// Whether a page is taken before the copies are sent: it was received together with them, and a batch has a place for its copy.
fn takes_another(taker: &Taker, copies: &Batch<Copied>, most: usize) -> bool
    ensures more { result ≡ true → taker.now.in_hand ≢ [] }
    ensures place { result ≡ true → length copies.now.items < most }
{
    taker.has_more() && copies.len() < most
}

/// Closes the sender of a copier that took the end mark.
fn at_end<R: Wait>(rt: &R, carried: &mut Carried)
    requires { carried.old.sender.closed ≡ false }
    ensures same { (carried.new.taker ≡ carried.old.taker) × (carried.new.serials ≡ carried.old.serials) }
    ensures closed { carried.new.sender ≡ record carried.old.sender { closed = true; marked = carried.new.sender.marked } }
    ensures marked { carried.new.sender.marked ≡ carried.new.whole }
{
    carried.whole = carried.sender.close(rt).is_ok();
}

/// A copier hands back the taker and the sender that it was given, and what it did with them.
#[derive(Drop)]
pub(crate) struct Carries {
    pub(crate) taker: Snapshot<Taker>,
    pub(crate) sender: Snapshot<DoneSender>,
}

impl Promise<Carried> for Carries {
    ghost use Rattle.round_core.specs.Copying.{IsCarried};

    ghost kept_by = { λ p r. IsCarried p.taker.value p.sender.value r };
}

pub(crate) type Copier = PromisedHandle<Carried, Carries>;

/// Starts a copier. None where no thread can be started.
pub(crate) fn start_copier<'s, 'e, G: Gate, R: Threads + Wait + Sync>(
    scope: &'s Scope<'s, &'e ()>,
    rt: &'e R,
    taker: Taker,
    sender: DoneSender,
    serials: Vec<Serial>,
    gate: &'e G,
    who: usize,
) -> Option<Copier>
    requires taker { IsUnused taker.hand_over taker }
    requires sender { IsUnsent sender }
    requires serials { serials.items ≡ [] }
    ensures { IfSome result (λ copier. copier.promise.taker.value ≡ taker) }
{
    let promise = Carries {
        taker: Snapshot::of(&taker),
        sender: Snapshot::of(&sender),
    };
    let started = stack().spawn_scoped_with(
        scope,
        promise,
        move || -> Carried
            requires taker { IsUnused taker.hand_over taker }
            requires sender { IsUnsent sender }
            requires serials { serials.items ≡ [] }
            ensures { IsCarried taker sender result }
        { carry(rt, taker, sender, serials, gate, who) },
    );
    match started {
        Ok(copier) => Some(copier),
        Err(_) => None,
    }
}
