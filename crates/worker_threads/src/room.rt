//! What is under the lock of a zone that workers compact.

ghost use Rattle.std.specs.Prelude.{◌≡◌, false, ◌↔◌, ◌+◌, ◌<◌, Some, None, [], IsOk, IfOk, IfErr, IfSome, IfNone, IsSome, OnOk, OnErr, OnSome, IsTrue, length, is_none, replicate, slice_get, slice_set};
ghost use Rattle.std.specs.Result.{result_err};
ghost use Rattle.frame_core.specs.Ends.{AreEndedOnce};
ghost use Rattle.frame_core.specs.Moves.{out};
ghost use Rattle.row_core.specs.Seen.{Half as Seen};
ghost use Rattle.state_core.specs.Ending.{ended_as};
ghost use Rattle.state_core.specs.Valid.{IsValidZone};
ghost use Rattle.state_core.specs.ZoneState.{frame_count};
ghost use Rattle.worker_threads.specs.Kept.{Keeps};
ghost use Rattle.worker_threads.specs.Rooms.{GetsNext, counted, fresh_round, in_hand, page_committed, stopped, way_at, work_opened};
ghost use Rattle.worker_threads.specs.Work.{AreRuns, work_refusal};
ghost use Rattle.worker_threads.specs.Working.{IsOnlyRound, WasSettled};
ghost use Rattle.worker_threads.specs.declared.work.Work.TheVariants as task;
ghost use Rattle.zone_core.specs.Made.{IsMade};
ghost use Rattle.zone_core.specs.ZoneIdentity.{HasIdentity};

use crate::keeping::Keeping;
use crate::page::{CopiedPage, PageInHand};
use crate::round::{Round, Stop};
use crate::work::Work;
use frame_core::ClientNo;
use row_core::Half;
use std::marker::{Model, PhantomData};
use zone_core::{
    BareZone, CopiedMove, Ended, LentMove, Next, Stranger, ZoneAnswer, ZoneCallOf as Call,
    ZoneError,
};
use zone_tables::Move;

/// The half that the zone keeps of the right to the words of a moving page, while a worker has the other one.
#[derive(Drop)]
pub(crate) struct KeptHalf {
    pub(crate) way: Move,
    pub(crate) half: Half,
}

/// A zone that workers compact, as whoever has the lock sees it.
#[derive(Drop)]
pub struct Room<K: Keeping, const W: usize> {
    zone: BareZone<W>,
    kept: Vec<Option<KeptHalf>>,
    work: Work,
    rounds: u64,
    is_under_way: bool,
    round: Round,
    of: PhantomData<K>,
}

impl<K: Keeping, const W: usize> Model for Room<K, W> {
    ghost use Rattle.std.specs.Coded.{codes};
    ghost use Rattle.row_core.specs.Seen.{half_code};
    ghost use Rattle.state_core.specs.ZoneCode.{coded_zone};
    ghost use Rattle.worker_threads.specs.Kept.{IsRoom, Keeps};
    ghost use Rattle.worker_threads.specs.Rooms.{Room as Seen};
    ghost use Rattle.worker_threads.specs.Runs.{runs_code};

    ghost Value = { Seen };

    ghost coded = { Prim.hlevel (codes, coded_zone, half_code, runs_code) };

    ghost view = { λ r. record { zone = r.zone; kept = r.kept.items; work = r.work; rounds = r.rounds; is_under_way = r.is_under_way; round = r.round } };

    ghost invariant = { λ r.
        let room : Seen = record { zone = r.zone; kept = r.kept.items; work = r.work; rounds = r.rounds; is_under_way = r.is_under_way; round = r.round } in
        IsRoom K.number K.blocks K.memory W room × Keeps K.keeps K.stops_at room };
}

impl<K: Keeping, const W: usize> Room<K, W> {
    /// A zone with so many places for pages that workers have, each of them free.
    pub(crate) fn new(zone: BareZone<W>, kept: Vec<Option<KeptHalf>>) -> Self
        requires valid { IsValidZone zone }
        requires identity { HasIdentity K.number K.blocks zone }
        requires memory { (zone.memory ≡ K.memory) × (is_none K.memory ≡ false) }
        requires free { kept.items ≡ replicate (length kept.items) None }
        requires keeps { K.keeps task.Compact 0 zone }
        ensures { result ≡ record { zone = zone.entry; kept = kept.items; work = task.Compact; rounds = 0; is_under_way = false; round = fresh_round } }
    {
        Room {
            zone,
            kept,
            work: Work::Compact,
            rounds: 0,
            is_under_way: false,
            round: Round::new(),
            of: PhantomData,
        }
    }

    /// The zone, to be read.
    pub fn zone(&self) -> &BareZone<W>
        ensures zone { result.now ≡ self.now.zone }
        ensures identity { HasIdentity K.number K.blocks result.now }
    {
        &self.zone
    }

    /// What the latest round did so far.
    pub fn round(&self) -> Round
        ensures round { result ≡ self.now.round }
        ensures sum { result.isolated ≡ result.moved + result.back + in_hand self.now.kept }
    {
        self.round
    }

    /// How many rounds were begun; 2^64 - 1 are counted at most.
    pub fn rounds(&self) -> u64
        ensures { result ≡ self.now.rounds }
    {
        self.rounds
    }

    /// Makes a call of a client, as `BareZone::make` does.
    pub fn make(&mut self, client: ClientNo, call: Call<W>) -> Result<ZoneAnswer, ZoneError>
        requires may { K.allows client }
        ensures made { IsMade call.entry client self.old.zone self.new.zone result }
        ensures others { self.new ≡ record self.old { zone = self.new.zone } }
    {
        self.zone.make(client, call)
    }

    /// Begins work, of which nothing is done yet. No page may be on its way.
    pub(crate) fn begin(&mut self, work: Work)
        requires may { K.works work }
        requires runs { AreRuns (frame_count self.old.zone) work }
        requires hands { in_hand self.old.kept ≡ 0 }
        requires none { out self.old.zone.records ≡ [] }
        ensures { self.new ≡ work_opened self.old work }
    {
        work.begin(&mut self.zone);
        self.work = work;
        self.rounds = self.rounds.saturating_add(1);
        self.is_under_way = true;
        self.round = Round::new();
    }

    /// Whether work may begin: none is under way, and no page is on its way.
    pub(crate) fn can_begin(&self) -> bool
        ensures begins { IsTrue result ↔ ((self.now.is_under_way ≡ false) × (out self.now.zone.records ≡ [])) }
        ensures hands { IsTrue result → in_hand self.now.kept ≡ 0 }
    {
        !self.is_under_way && self.is_settled()
    }

    /// Ends the work that is under way: other work may begin.
    pub(crate) fn end(&mut self)
        ensures { self.new ≡ record self.old { is_under_way = false } }
    {
        self.is_under_way = false;
    }

    /// Whether no page is on its way: each that was ever isolated was moved or put back, once.
    pub fn is_settled(&self) -> bool
        ensures none { IsTrue result ↔ (out self.now.zone.records ≡ []) }
        ensures once { IsTrue result → AreEndedOnce self.now.zone.records }
        ensures hands { IsTrue result → in_hand self.now.kept ≡ 0 }
    {
        self.zone.audit().is_ok()
    }

    /// What the latest work did, if it has stopped and no page is on its way.
    pub fn settled(&self) -> Option<Round>
        ensures some { IsSome result ↔ (IsSome self.now.round.stopped × (out self.now.zone.records ≡ [])) }
        ensures round { IfSome result (λ round. round ≡ self.now.round) }
        ensures settled { IfSome result (WasSettled K.number K.blocks K.memory W) }
    {
        if self.round.stopped.is_none() || !self.is_settled() {
            return None;
        }
        Some(self.round)
    }

    /// Whether work has begun, so that pages are isolated, and this place is free for one.
    pub(crate) fn can_take(&self, place: usize) -> bool
        ensures { IsTrue result ↔ ((0 < self.now.rounds) × (slice_get self.now.kept place ≡ Some None)) }
    {
        self.rounds > 0 && matches!(self.kept.get(place), Some(None))
    }

    /// Isolates the page that is next and hands it to a worker, with the rows of both its frames. The zone keeps half of the right to its
    /// words at a free place.
    ///
    /// Refused as JournalFull where `isolate_next` is, unless no run is left. A refusal changes nothing but that the round notes it, as it
    /// notes Met.
    pub(crate) fn take_page(&mut self, place: usize) -> Result<Next<PageInHand<K, W>>, ZoneError>
        requires begun { 0 < self.old.rounds }
        requires free { slice_get self.old.kept place ≡ Some None }
        ensures refused { result_err result ≡ work_refusal self.old.work self.old.zone }
        ensures err { OnErr result (self.new ≡ stopped self.old Stop.JournalFull) }
        ensures ok { IfOk result (GetsNext place self.old self.new) }
    {
        let next = self.work.lend_next(&mut self.zone);
        self.round.note(&next, self.work.none_found());
        let Next::Page(lent) = next? else {
            return Ok(Next::Met);
        };
        let (way, from, to) = lent.into_parts();
        let (half, from) = from.halve();
        let page = PageInHand::new(place, way, from, to);
        let way = page.way();
        self.kept[place] = Some(KeptHalf { way, half });
        Ok(Next::Page(page))
    }

    /// Takes the copy of a page back from a worker, and ends its move: the page is in its new frame afterwards, or in its old one where it
    /// has a pin. The frame that a page of a run left is claimed. Both halves are put together, which shows that nobody wrote the words that
    /// the page left. A copy is handed back unless the zone keeps the other half at its place.
    pub(crate) fn commit(
        &mut self,
        copied: CopiedPage<K, W>,
    ) -> Result<Ended, Stranger<CopiedPage<K, W>>>
        ensures own { IsOk result ↔ (way_at self.old.kept copied.place ≡ Some copied.way) }
        ensures back { IfErr result (λ stranger. stranger.0 ≡ copied) }
        ensures err { OnErr result (self.new ≡ self.old) }
        ensures ended { IfOk result (λ ended. ended ≡ ended_as self.old.zone copied.way.page) }
        ensures ok { OnOk result (self.new ≡ page_committed self.old copied.place copied.way) }
    {
        let way = copied.page().way();
        let Some(half) = take_half(&mut self.kept, copied.page().place(), &way) else {
            return Err(Stranger(copied));
        };
        let (from, to) = copied.into_page().into_rows();
        let moved = CopiedMove::of(LentMove::of(way, half.rejoin(from), to));
        let Ok(ended) = self.work.commit(&mut self.zone, moved) else {
            unreachable!()
        };
        self.round.count(ended);
        Ok(ended)
    }

    /// Takes the zone out, with what its first round did, if that has stopped, no page is on its way, and no other round was begun.
    pub(crate) fn into_first(self) -> (BareZone<W>, Option<Round>)
        ensures valid { IsValidZone result.0 }
        ensures identity { HasIdentity K.number K.blocks result.0 }
        ensures first { IfSome result.1 (IsOnlyRound K.keeps K.stops_at result.0) }
    {
        let settled = self.settled();
        let round = if self.rounds == 1 { settled } else { None };
        (self.zone, round)
    }

    /// Takes the zone out, with what the latest round did.
    pub(crate) fn into_parts(self) -> (BareZone<W>, Round)
        ensures parts { (result.0 ≡ self.zone) × (result.1 ≡ self.round) }
        ensures keeps { Keeps K.keeps K.stops_at self }
        ensures identity { HasIdentity K.number K.blocks result.0 }
        ensures memory { result.0.memory ≡ K.memory }
    {
        (self.zone, self.round)
    }
}

/// Takes the half out that is kept at a place, if it is that of this move.
fn take_half(kept: &mut Vec<Option<KeptHalf>>, place: usize, way: &Move) -> Option<Half>
    ensures own { IsSome result ↔ (way_at kept.old.items place ≡ Some way.now) }
    ensures half { IfSome result (λ half. slice_get kept.old.items place ≡ Some (Some (record { way = way.now; half = half }))) }
    ensures taken { OnSome result (kept.new.items ≡ slice_set kept.old.items place None) }
    ensures none { IfNone result (kept.new.items ≡ kept.old.items) }
{
    if !is_kept(kept.as_slice(), place, way) {
        return None;
    }
    let kept = kept[place].take()?;
    Some(kept.half)
}

/// Whether the half of this move is kept at a place.
fn is_kept(kept: &[Option<KeptHalf>], place: usize, way: &Move) -> bool
    ensures own { IsTrue result ↔ (way_at kept.now place ≡ Some way.now) }
    ensures half { IsTrue result → (half : Seen) × (slice_get kept.now place ≡ Some (Some (record { way = way.now; half = half }))) }
{
    let Some(Some(kept)) = kept.get(place) else {
        return false;
    };
    kept.way == *way
}
