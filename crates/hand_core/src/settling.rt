ghost use Rattle.std.specs.Prelude.{◌≡◌, ◌↔◌, true, List, [], All, IfOk, IfErr, IsOk, length, vec_len};
ghost use Rattle.std.specs.List.{range_with_len};
ghost use Rattle.std.specs.List.Sorted.{IsPermutation};
ghost use Rattle.hand_core.specs.HandedOver.{Holds};
ghost use Rattle.hand_core.specs.PageEnds.{off, taken_by, have_ended};
ghost use Rattle.frame_core.specs.Serials.{serials_of, IsRising};
ghost use Rattle.hand_core.specs.declared.page_queue.Note.{Note};

use crate::giver::Giver;
use crate::opening::Takers;
use crate::page_queue::{Shares, Whole};
use crate::taker::Taker;
use frame_core::Serial;

/// The serials of the pages that were handed over: `count` from `base` on.
#[derive(Clone, Copy, Debug, PartialEq, Eq)]
pub struct Settled {
    pub base: Serial,
    pub count: u128,
}

/// Answers Ok exactly where the giver put all its marks, every taker of its hand-over is there, and each of them took its
/// mark. Else all of them are handed back unchanged. The takers have to be of the giver's hand-over.
pub fn settle(giver: Giver, takers: Takers) -> Result<Settled, (Giver, Takers)>
    requires { All (λ t. t.hand_over ≡ giver.hand_over) takers.items }
    ensures exact { IsOk result ↔ ((giver.marks ≡ giver.takers) × (vec_len takers ≡ giver.takers) × (have_ended takers.items ≡ true)) }
    ensures count { IfOk result (λ s. (s.base ≡ giver.base) × (s.count ≡ length giver.given)) }
    ensures pages { IfOk result (λ s. IsPermutation (taken_by takers.items) giver.given) }
    ensures serials { IfOk result (λ s. IsPermutation (serials_of (taken_by takers.items)) (range_with_len s.base s.count)) }
    ensures rising { IfOk result (λ s. All (λ t. IsRising t.taken) takers.items) }
    ensures answered { IfOk result (λ _. All (λ t. off t ≡ t.taken) takers.items) }
    ensures empty { IfOk result (λ _. (queue : List Note) → Holds queue giver takers.items → queue ≡ []) }
    ensures err { IfErr result (λ ends. (ends.0 ≡ giver) × (ends.1 ≡ takers)) }
{
    if giver.marks != giver.takers || takers.len() != giver.takers || !all_ended(&takers) {
        return Err((giver, takers));
    }
    Ok(take_back(giver, takers))
}

fn all_ended(takers: &Takers) -> bool
    ensures { result ≡ have_ended takers.now.items }
{
    takers.iter().all(|taker| taker.ended)
}

// Takes all shares back from takers that each took a mark.
fn take_back(giver: Giver, mut takers: Takers) -> Settled
    requires takers { All (λ t. t.hand_over ≡ giver.hand_over) takers.items }
    requires ended { All (λ t. t.ended ≡ true) takers.items }
    requires marks { (giver.marks ≡ giver.takers) × (vec_len takers ≡ giver.takers) }
    ensures count { (result.base ≡ giver.base) × (result.count ≡ length giver.given) }
    ensures pages { IsPermutation (taken_by takers.items) giver.given }
    ensures rising { All (λ t. IsRising t.taken) takers.items }
    ensures answered { All (λ t. off t ≡ t.taken) takers.items }
    ensures empty { (queue : List Note) → Holds queue giver takers.items → queue ≡ [] }
{
    let Giver {
        base,
        next,
        to,
        mut pass,
        ..
    } = giver;
    while let Some(taker) = takers.pop() {
        let Taker { pass: theirs, .. } = taker;
        to.absorb::<Shares>(&mut pass, theirs);
    }
    to.learn_as::<Whole>(&mut pass);
    Settled {
        base,
        count: next - u128::from(base),
    }
}
