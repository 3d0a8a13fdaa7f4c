ghost use Rattle.std.specs.Prelude.{◌≡◌, false};
ghost use Rattle.hand_core.specs.CopyEnds.{has_ended};

use crate::gate::{COMMITTER, Gate, Point, tell_all};
use crate::keeping::Keeping;
use crate::memory::Copies;
use crate::shared_zone::KeptIn;
use crate::under_lock::commit_copies;
use frame_core::Serial;
use hand_core::Came;
use std::marker::PhantomData;
use std::sync::Wait;
use std::thread::{Promise, PromisedHandle};
use zone_core::{EndSeatIn, Opening};

/// What the committer hands back: its part of the end seat, the least serial that was refused, and whether it came to
/// the end of the copies.
#[derive(Drop)]
pub(crate) struct Committed<Z: Opening> {
    pub(crate) seat: EndSeatIn<Z>,
    pub(crate) stranger: Option<Serial>,
    pub(crate) whole: bool,
}

/// What comes after the copies that were gathered.
enum Following {
    More,
    End,
    Gone,
}

/// Commits all copies that come, with one part of the end seat, as many at once as the list has room for.
pub(crate) fn commit_all<K: Keeping, Z: Opening, G: Gate, R: Wait>(
    rt: &R,
    shared: &KeptIn<K, Z>,
    mut copies: Copies,
    mut seat: EndSeatIn<Z>,
    gate: &G,
) -> Committed<Z>
    requires { has_ended copies.taker ≡ false }
    ensures parts { result.seat.parts ≡ seat.parts }
    ensures back { K.unpinned → result.seat.back ≡ seat.back }
{
    let mut stranger = None;
    for _ in rt.forever() {
        let following = gather(rt, &mut copies);
        let gathered = &mut copies.gathered;
        let count = gathered.len();
        stranger = commit_copies(&mut shared.lock(rt), &mut seat, gathered, stranger);
        tell_all(gate, Point::Ended, COMMITTER, count);
        let whole = match following {
            Following::More => continue,
            Following::End => true,
            Following::Gone => false,
        };
        return Committed {
            seat,
            stranger,
            whole,
        };
    }
    unreachable!()
}

/// Gathers the copies that are there, until the list is full. It waits for the first one only.
fn gather<R: Wait>(rt: &R, copies: &mut Copies) -> Following
    requires { has_ended copies.old.taker ≡ false }
    ensures { result ≡ Following.More → has_ended copies.new.taker ≡ false }
{
    let Copies { taker, gathered } = copies;
    while gathered.len() < gathered.capacity() {
        let came = if gathered.is_empty() {
            Some(taker.take(rt))
        } else {
            taker.try_take(rt)
        };
        match came {
            Some(Came::Copy(copy)) => gathered.push_back_reserved(copy),
            Some(Came::End) => return Following::End,
            Some(Came::Gone) => return Following::Gone,
            None => break,
        }
    }
    Following::More
}

/// The committer hands back the one part of the end seat that it was given.
#[derive(Drop)]
pub(crate) struct HandsPartBack<K: Keeping> {
    pub(crate) of: PhantomData<K>,
}

impl<K: Keeping, Z: Opening> Promise<Committed<Z>> for HandsPartBack<K> {
    ghost use Rattle.std.specs.Prelude.{◌≡◌};

    ghost kept_by = { λ _ r. (r.seat.parts ≡ 1) × (K.unpinned → r.seat.back ≡ 0) };
}

pub(crate) type Committer<K, Z> = PromisedHandle<Committed<Z>, HandsPartBack<K>>;
