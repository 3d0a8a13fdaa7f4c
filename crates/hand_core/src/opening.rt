ghost use Rattle.std.specs.Prelude.{◌≡◌, ◌+◌, ◌*◌, ◌/◌, ◌<◌, ◌≤◌, ◌↔◌, false, [], All, IfOk, IfErr, OnOk, vec_len};
ghost use Rattle.crossbeam_channel.specs.Claims.{view, IsSeatAt};
ghost use Rattle.crossbeam_channel.specs.Ends.{sends_on, receives_on};
ghost use Rattle.hand_core.specs.Queue.{name_of};
ghost use Rattle.hand_core.specs.PageQueue.{giver_knows};

use crate::batch::{Batch, is_in_range};
use crate::error::HandError;
use crate::giver::Giver;
use crate::page_queue::{Known, Note, Ordered, Shares};
use crate::taker::Taker;
use crossbeam_channel::{Pass, RuledReceiver, RuledSender, bounded_with};
use frame_core::Serial;
use std::alloc::{AllocError, Global};

/// The takers of a hand-over.
pub type Takers = Vec<Taker>;

/// Opens a hand-over whose first page has the serial `base`, with room for `cap` pages in its queue, which are given one by one. No
/// later call takes memory.
///
/// Refused as Range unless there are 1 to 4 takers and a `cap` of 1 to 64, else as Memory where there isn't enough.
pub fn open<R>(
    rt: &R,
    alloc: Global,
    base: Serial,
    takers: usize,
    cap: usize,
) -> Result<(Giver, Takers), HandError>
    ensures range { (result ≡ Err HandError.Range) ↔ (¬ ((0 < takers) × (takers ≤ 4) × (0 < cap) × (cap ≤ 64))) }
    ensures giver { IfOk result (λ ends. ends.0 ≡ record { hand_over = ends.0.hand_over; room = cap; most = 1; takers = takers; base = base; given = []; marks = 0; closed = false }) }
    ensures takers { IfOk result (λ ends. vec_len ends.1 ≡ takers) }
    ensures fresh { IfOk result (λ ends. All (λ t. t ≡ record { hand_over = ends.0.hand_over; taken = []; in_hand = []; ended = false }) ends.1.items) }
{
    open_in_batches(rt, alloc, base, takers, cap, 1)
}

/// Opens a hand-over as `open` does, with room for `cap` pages in batches of at most `most` pages: for as many batches as keep it
/// from ever holding more pages.
///
/// Refused as Range where `open` is, and unless `most` is 1 to 8 and at most `cap`; else as Memory where there isn't enough.
#[tactic(auto, using(crate::proofs::HandedOver::room_fits))]
pub fn open_in_batches<R>(
    _rt: &R,
    alloc: Global,
    base: Serial,
    takers: usize,
    cap: usize,
    most: usize,
) -> Result<(Giver, Takers), HandError>
    ensures range { (result ≡ Err HandError.Range) ↔ (¬ ((0 < takers) × (takers ≤ 4) × (cap ≤ 64) × (0 < most) × (most ≤ 8) × (most ≤ cap))) }
    ensures giver { IfOk result (λ ends. ends.0 ≡ record { hand_over = ends.0.hand_over; room = cap / most; most = most; takers = takers; base = base; given = []; marks = 0; closed = false }) }
    ensures cap { IfOk result (λ ends. ends.0.room * ends.0.most ≤ cap) }
    ensures takers { IfOk result (λ ends. vec_len ends.1 ≡ takers) }
    ensures fresh { IfOk result (λ ends. All (λ t. t ≡ record { hand_over = ends.0.hand_over; taken = []; in_hand = []; ended = false }) ends.1.items) }
{
    if !is_in_range(takers, cap, most) {
        return Err(HandError::Range);
    }
    opened(alloc, base, takers, cap / most, most)
}

/// Opens a hand-over with room for so many batches, where the numbers are in range.
fn opened(
    alloc: Global,
    base: Serial,
    takers: usize,
    room: usize,
    most: usize,
) -> Result<(Giver, Takers), HandError>
    requires takers { (0 < takers) × (takers ≤ 4) }
    requires room { 0 < room }
    requires most { (0 < most) × (most ≤ 8) }
    ensures giver { IfOk result (λ ends. ends.0 ≡ record { hand_over = ends.0.hand_over; room = room; most = most; takers = takers; base = base; given = []; marks = 0; closed = false }) }
    ensures takers { IfOk result (λ ends. vec_len ends.1 ≡ takers) }
    ensures fresh { IfOk result (λ ends. All (λ t. t ≡ record { hand_over = ends.0.hand_over; taken = []; in_hand = []; ended = false }) ends.1.items) }
    ensures memory { IfErr result (λ error. error ≡ HandError.Memory) }
{
    let (to, from, mut pass) = bounded_with::<Note, Known, Ordered, Global>(alloc, room)?;
    let all = new_takers(alloc, &to, &from, &mut pass, takers)?;
    let giver = Giver {
        base,
        next: u128::from(base),
        most,
        takers,
        marks: 0,
        closed: false,
        to,
        pass,
    };
    Ok((giver, all))
}

/// This many takers, each with a share of the giver's knowledge.
fn new_takers(
    alloc: Global,
    to: &RuledSender<Note, Known, Ordered, Global>,
    from: &RuledReceiver<Note, Known, Ordered, Global>,
    pass: &mut Pass<Note, Known>,
    takers: usize,
) -> Result<Takers, AllocError>
    requires few { takers ≤ 4 }
    requires channel { (receives_on from.now ≡ sends_on to.now) × IsSeatAt (sends_on to.now) pass.old }
    requires knows { view pass.old ≡ giver_knows }
    ensures channel { OnOk result (IsSeatAt (sends_on to.now) pass.new) }
    ensures knows { OnOk result ((view pass.new ≡ record giver_knows { shares = (view pass.new).shares }) × ((view pass.new).shares + takers ≡ 1024)) }
    ensures made { IfOk result (λ all. vec_len all ≡ takers) }
    ensures fresh { IfOk result (λ all. All (λ t. t ≡ record { hand_over = name_of (sends_on to.now); taken = []; in_hand = []; ended = false }) all.items) }
{
    let mut all = Vec::with_capacity(alloc, takers)?;
    for _taker in 0..takers {
        let theirs = to.another::<Shares>(pass);
        let from = from.try_clone()?;
        all.push_reserved(Taker {
            ended: false,
            hand: Batch::new().into_iter(),
            from,
            pass: theirs,
        });
    }
    Ok(all)
}
