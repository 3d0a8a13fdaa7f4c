ghost use Rattle.std.specs.Prelude.{◌≡◌, ◌*◌, ◌/◌, ◌<◌, ◌≤◌, ◌↔◌, ℕ, false, [], IfOk, IfErr, vec_len, slice_get, Some, OnOk};
ghost use Rattle.crossbeam_channel.specs.Claims.{view, IsSeatAt};
ghost use Rattle.crossbeam_channel.specs.Ends.{sends_on};
ghost use Rattle.hand_core.specs.Queue.{name_of};
ghost use Rattle.hand_core.specs.CopyQueue.{taker_account};

use crate::batch::{Batch, is_in_range};
use crate::copy_queue::{Account, Makes, Message, Turns};
use crate::done_sender::DoneSender;
use crate::done_taker::DoneTaker;
use crate::error::HandError;
use crossbeam_channel::{Pass, RuledSender, bounded_with};
use std::alloc::{AllocError, Global};

/// Opens a queue for the copies of this many senders, with room for `cap` copies, which are sent one by one. No later call takes memory.
///
/// Refused as Range unless there are 1 to 4 senders and a `cap` of 1 to 64, else as Memory where there isn't enough.
pub fn done_open<R>(
    rt: &R,
    alloc: Global,
    senders: usize,
    cap: usize,
) -> Result<(Vec<DoneSender>, DoneTaker), HandError>
    ensures range { (result ≡ Err HandError.Range) ↔ (¬ ((0 < senders) × (senders ≤ 4) × (0 < cap) × (cap ≤ 64))) }
    ensures taker { IfOk result (λ ends. ends.1 ≡ record { queue = ends.1.queue; room = cap; senders = senders; came = []; in_hand = [] }) }
    ensures senders { IfOk result (λ ends. vec_len ends.0 ≡ senders) }
    ensures fresh { IfOk result (λ ends. (number : ℕ) → number < senders → slice_get ends.0.items number ≡ Some (record { queue = ends.1.queue; most = 1; number = number; sent = []; marked = false; closed = false })) }
{
    done_open_in_batches(rt, alloc, senders, cap, 1)
}

/// Opens a queue as `done_open` does, with room for `cap` copies in batches of at most `most` copies: for as many batches as keep it
/// from ever holding more copies.
///
/// Refused as Range where `done_open` is, and unless `most` is 1 to 8 and at most `cap`; else as Memory where there isn't enough.
#[tactic(auto, using(crate::proofs::HandedOver::room_fits))]
pub fn done_open_in_batches<R>(
    _rt: &R,
    alloc: Global,
    senders: usize,
    cap: usize,
    most: usize,
) -> Result<(Vec<DoneSender>, DoneTaker), HandError>
    ensures range { (result ≡ Err HandError.Range) ↔ (¬ ((0 < senders) × (senders ≤ 4) × (cap ≤ 64) × (0 < most) × (most ≤ 8) × (most ≤ cap))) }
    ensures taker { IfOk result (λ ends. ends.1 ≡ record { queue = ends.1.queue; room = cap / most; senders = senders; came = []; in_hand = [] }) }
    ensures cap { IfOk result (λ ends. ends.1.room * most ≤ cap) }
    ensures senders { IfOk result (λ ends. vec_len ends.0 ≡ senders) }
    ensures fresh { IfOk result (λ ends. (number : ℕ) → number < senders → slice_get ends.0.items number ≡ Some (record { queue = ends.1.queue; most = most; number = number; sent = []; marked = false; closed = false })) }
{
    if !is_in_range(senders, cap, most) {
        return Err(HandError::Range);
    }
    opened(alloc, senders, cap / most, most)
}

/// Opens a queue with room for so many batches, where the numbers are in range.
fn opened(
    alloc: Global,
    senders: usize,
    room: usize,
    most: usize,
) -> Result<(Vec<DoneSender>, DoneTaker), HandError>
    requires senders { senders ≤ 4 }
    requires room { 0 < room }
    requires most { (0 < most) × (most ≤ 8) }
    ensures taker { IfOk result (λ ends. ends.1 ≡ record { queue = ends.1.queue; room = room; senders = senders; came = []; in_hand = [] }) }
    ensures senders { IfOk result (λ ends. vec_len ends.0 ≡ senders) }
    ensures fresh { IfOk result (λ ends. (number : ℕ) → number < senders → slice_get ends.0.items number ≡ Some (record { queue = ends.1.queue; most = most; number = number; sent = []; marked = false; closed = false })) }
    ensures memory { IfErr result (λ error. error ≡ HandError.Memory) }
{
    let (to, from, mut pass) = bounded_with::<Message, Account, Turns, Global>(alloc, room)?;
    let all = new_senders(alloc, &to, &mut pass, senders, most)?;
    let taker = DoneTaker {
        senders,
        marked: [false; 4],
        hand: Batch::new().into_iter(),
        from,
        pass,
    };
    Ok((all, taker))
}

/// This many senders, which the taker's pass makes.
fn new_senders(
    alloc: Global,
    to: &RuledSender<Message, Account, Turns, Global>,
    pass: &mut Pass<Message, Account>,
    senders: usize,
    most: usize,
) -> Result<Vec<DoneSender>, AllocError>
    requires most { (0 < most) × (most ≤ 8) }
    requires channel { IsSeatAt (sends_on to.now) pass.old }
    requires knows { view pass.old ≡ taker_account }
    ensures channel { OnOk result (IsSeatAt (sends_on to.now) pass.new) }
    ensures knows { OnOk result (view pass.new ≡ record taker_account { made = senders }) }
    ensures made { IfOk result (λ all. vec_len all ≡ senders) }
    ensures fresh { IfOk result (λ all. (number : ℕ) → number < senders → slice_get all.items number ≡ Some (record { queue = name_of (sends_on to.now); most = most; number = number; sent = []; marked = false; closed = false })) }
{
    let mut all = Vec::with_capacity(alloc, senders)?;
    for number in 0..senders {
        let theirs = to.another::<Makes>(pass);
        let to = to.try_clone()?;
        all.push_reserved(DoneSender {
            most,
            number,
            closed: false,
            to,
            pass: theirs,
        });
    }
    Ok(all)
}
