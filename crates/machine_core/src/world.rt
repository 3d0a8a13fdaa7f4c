//! A zone with its seats, its isolated pages, and four hands.

ghost use Rattle.std.specs.Prelude.{◌≡◌, ◌<◌, ◌≤◌, ◌↔◌, ℕ, IsTrue, true, Some, None, Err, IfOk, IfErr, OnOk, OnErr, IsErr};
ghost use Rattle.std.specs.Int.RustNames.{bit_and};
ghost use Rattle.zone_core.specs.Books.{AreFor};
ghost use Rattle.machine_core.specs.ErrorNumber.{world_number_of};
ghost use Rattle.state_core.specs.Isolating.{isolate_refusal};
ghost use Rattle.zone_core.specs.Seats.{seat_full, audit_refusal, fresh_scan_seat, fresh_end_seat};
ghost use Rattle.state_core.specs.Pairs.{next_pair};
ghost use Rattle.frame_core.specs.Journal.{unrecorded_places};
ghost use Rattle.state_core.specs.Valid.{IsValidZone};
ghost use Rattle.state_core.specs.Opening.{IsOpenable, IsSize, opened_with};
ghost use Rattle.std.specs.Result.{result_err};
ghost use Rattle.state_core.specs.Mapping.{map_refusal, map_at_refusal, mapped};
ghost use Rattle.state_core.specs.Access.{access_refusal, value_at, loaded, stored};
ghost use Rattle.frame_core.specs.PageFlags.{is_unmovable};
ghost use Rattle.machine_core.specs.World.{WorldState, IsOrderly, waits, world_opened_with, world_closed, with_zone, round_opened, scan_stopped, scanned_by, isolated_by, scan_refusal, scan_answer, scanned, take_step, copy_step, finish_step, shut_step};
ghost use Rattle.state_core.specs.ZoneState.{frame_for};

mod calls;

use crate::ending::{finish_in, put_all_back_in};
use crate::finished::Finished;
use crate::hands::{Hands, Held};
use crate::rest::Rest;
use crate::scanned::Scanned;
use frame_core::{
    Address, ClientNo, FrameNo, HandNo, IsolatedOf, PageFlags, Serial, WordOf, ZoneNo,
};
use state_core::{Next, ZoneAnswer, ZoneCallOf, ZoneError};
use std::alloc::Global;
use std::collections::VecDeque;
use std::marker::Model;
use thiserror::Error;
use zone_core::{Blanks, EndSeatIn, Opening, ScanSeatIn, Seats, SeatsIn, ZoneInOf};

/// Why a call of a world was refused.
#[derive(Clone, Copy, Debug, PartialEq, Eq, Error)]
pub enum WorldError {
    #[error("the zone refused: {0}")]
    Zone(ZoneError),
    #[error("the hand does not hold what the call needs, or no page waits")]
    Hand,
}

impl WorldError {
    /// The number that a script prints for it: that of the zone's refusal, or 45 for a hand.
    pub fn number(&self) -> u16
        ensures { result ≡ world_number_of self.now }
    {
        match self {
            WorldError::Zone(error) => error.number(),
            WorldError::Hand => 45,
        }
    }
}

/// A zone with its seats, its isolated pages, and four hands, over pages of `W` words. Each hand is empty, or has a page or its
/// copy. After `open` no call takes memory.
pub struct World<const W: usize, Z: Opening> {
    zone: ZoneInOf<W, Z>,
    scan: ScanSeatIn<Z>,
    ends: EndSeatIn<Z>,
    waiting: VecDeque<IsolatedOf<W>>,
    hands: Hands<W>,
    is_open: bool,
}

// Written out, so that the crates above have nothing to prove of its parts.
impl<const W: usize, Z: Opening> Drop for World<W, Z> {
    fn drop(self) {
        let World {
            zone: _zone,
            scan: _scan,
            ends: _ends,
            waiting: _waiting,
            hands: _hands,
            is_open: _,
        } = self;
    }
}

impl<const W: usize, Z: Opening> Model for World<W, Z> {
    ghost use Rattle.std.specs.Coded.{codes};
    ghost use Rattle.std.specs.VecDeque.{deque_capacity};
    ghost use Rattle.machine_core.specs.World.{WorldState};
    ghost use Rattle.state_core.specs.ZoneCode.{coded_zone};

    ghost Value = { WorldState };

    ghost coded = { Prim.hlevel (codes, coded_zone) };

    ghost use Rattle.machine_core.specs.Carried.{world_of, IsCarried};

    ghost view = { λ w. world_of w.zone w.scan w.ends w.is_open w.waiting.items w.hands.held };

    ghost invariant = { λ w. IsCarried w.zone w.scan w.ends w.is_open w.waiting.items w.hands.held (deque_capacity w.waiting) };
}

impl<const W: usize, Z: Opening> World<W, Z> {
    /// A world with an empty zone. The blanks have the names of `Z`. They are dropped where the call is refused.
    ///
    /// Refused as Range unless there are 1 to 8 pageblocks and 1 to 65,536 places, else as Memory where there isn't enough.
    pub fn open(
        alloc: Global,
        number: ZoneNo,
        blocks: u32,
        places: u32,
        blanks: Blanks,
    ) -> Result<World<W, Z>, ZoneError>
        requires blanks { AreFor blanks Z.isolated Z.rounds Z.moved Z.back }
        requires size { W ≤ 65536 }
        ensures range { ¬ (IsOpenable blocks places) → result ≡ Err ZoneError.Range }
        ensures memory { IsOpenable blocks places → IfErr result (λ error. error ≡ ZoneError.Memory) }
        ensures ok { IfOk result (λ world. world ≡ world_opened_with W number blocks places) }
        ensures orderly { IfOk result (λ world. IsOrderly world) }
    {
        let (zone, scan, ends) = ZoneInOf::<W, Z>::open(alloc, number, blocks, places, blanks)?;
        Self::around(alloc, blocks, zone, scan, ends)
    }

    /// A world with an empty zone whose journal is unrecorded: its records exist in the proofs alone, and it has room for 2^53 of them.
    ///
    /// Refused as Range unless there are 1 to 32,768 pageblocks, else as Memory where there isn't enough.
    pub fn open_unrecorded(
        alloc: Global,
        number: ZoneNo,
        blocks: u32,
        blanks: Blanks,
    ) -> Result<World<W, Z>, ZoneError>
        requires blanks { AreFor blanks Z.isolated Z.rounds Z.moved Z.back }
        requires size { W ≤ 65536 }
        ensures range { ¬ (IsSize blocks) → result ≡ Err ZoneError.Range }
        ensures memory { IsSize blocks → IfErr result (λ error. error ≡ ZoneError.Memory) }
        ensures ok { IfOk result (λ world. world ≡ world_opened_with W number blocks unrecorded_places) }
        ensures orderly { IfOk result (λ world. IsOrderly world) }
    {
        let (zone, scan, ends) = ZoneInOf::<W, Z>::open_unrecorded(alloc, number, blocks, blanks)?;
        Self::around(alloc, blocks, zone, scan, ends)
    }

    /// A world around a zone that was just opened.
    fn around(
        alloc: Global,
        blocks: u32,
        zone: ZoneInOf<W, Z>,
        scan: ScanSeatIn<Z>,
        ends: EndSeatIn<Z>,
    ) -> Result<World<W, Z>, ZoneError>
        requires zone { (number places : ℕ) × (zone ≡ opened_with W number blocks places) }
        requires valid { IsValidZone zone }
        requires scan { scan ≡ fresh_scan_seat }
        requires ends { ends ≡ fresh_end_seat }
        ensures memory { IfErr result (λ error. error ≡ ZoneError.Memory) }
        ensures ok { IfOk result (λ world. world ≡ world_closed zone fresh_scan_seat fresh_end_seat) }
        ensures orderly { IfOk result (λ world. IsOrderly world) }
    {
        let Ok(waiting) = VecDeque::with_capacity(alloc, 256 * blocks as usize) else {
            return Err(ZoneError::Memory);
        };
        Ok(World {
            zone,
            scan,
            ends,
            waiting,
            hands: Hands::new(),
            is_open: false,
        })
    }

    /// The zone of the world.
    pub fn zone(&self) -> &ZoneInOf<W, Z>
        ensures zone { result.now ≡ self.now.zone }
        // Whatever calls were made, in any order: the pages that wait and those in hands are exactly the moving ones, each
        // once, and those that wait are in the order of their serials.
        ensures orderly { IsOrderly self.now }
        ensures least { (hand serial : ℕ) (after : WorldState) → 0 < hand → hand ≤ 4 → take_step self.now hand ≡ Some (serial, after)
            → (waiting : ℕ) → IsTrue (waits self.now waiting) → serial ≤ waiting }
    {
        &self.zone
    }

    /// Whether a hand round is open: from the first scan to the shut.
    pub fn is_open(&self) -> bool
        ensures { result ≡ self.now.is_open }
    {
        self.is_open
    }

    /// Makes an address name a fresh page in a free frame. The frame, the condition and the refusals are those of `Zone::map`.
    pub fn map(
        &mut self,
        client: ClientNo,
        address: Address,
        flags: PageFlags,
    ) -> Result<FrameNo, ZoneError>
        requires clean { bit_and flags.0 2 ≡ 0 }
        ensures refused { result_err result ≡ map_refusal self.old.zone address }
        ensures err { OnErr result (self.new ≡ self.old) }
        ensures frame { IfOk result (λ frame. frame_for self.old.zone (is_unmovable flags) ≡ Some frame) }
        ensures ok { IfOk result (λ frame. self.new ≡ with_zone self.old (mapped self.old.zone client address (is_unmovable flags) frame)) }
        ensures orderly { IsOrderly self.new }
    {
        self.zone.map(client, address, flags)
    }

    /// Makes an address name a fresh page in a given frame. Its condition and its refusals are those of `Zone::map_at`.
    pub fn map_at(
        &mut self,
        client: ClientNo,
        address: Address,
        flags: PageFlags,
        frame: FrameNo,
    ) -> Result<(), ZoneError>
        requires clean { bit_and flags.0 2 ≡ 0 }
        ensures refused { result_err result ≡ map_at_refusal self.old.zone address frame }
        ensures err { OnErr result (self.new ≡ self.old) }
        ensures ok { OnOk result (self.new ≡ with_zone self.old (mapped self.old.zone client address (is_unmovable flags) frame)) }
        ensures orderly { IsOrderly self.new }
    {
        let unmovable = flags.is_unmovable();
        self.make(
            client,
            ZoneCallOf::MapAt {
                address,
                unmovable,
                frame,
            },
        )?;
        Ok(())
    }

    /// Reads a word of the page that an address names. Refused as JournalFull, Unmapped or Moving.
    pub fn load(
        &mut self,
        client: ClientNo,
        address: Address,
        word: WordOf<W>,
    ) -> Result<u64, ZoneError>
        ensures refused { result_err result ≡ access_refusal self.old.zone address }
        ensures err { OnErr result (self.new ≡ self.old) }
        ensures value { IfOk result (λ value. value ≡ value_at self.old.zone address word.entry) }
        ensures ok { OnOk result (self.new ≡ with_zone self.old (loaded self.old.zone client address word.entry)) }
        ensures orderly { IsOrderly self.new }
    {
        match self.make(client, ZoneCallOf::Load { address, word })? {
            ZoneAnswer::Value(value) => Ok(value),
            _ => unreachable!(),
        }
    }

    /// Writes a word of the page that an address names. Refused as JournalFull, Unmapped or Moving.
    pub fn store(
        &mut self,
        client: ClientNo,
        address: Address,
        word: WordOf<W>,
        value: u64,
    ) -> Result<(), ZoneError>
        ensures refused { result_err result ≡ access_refusal self.old.zone address }
        ensures err { OnErr result (self.new ≡ self.old) }
        ensures ok { OnOk result (self.new ≡ with_zone self.old (stored self.old.zone client address word.entry value)) }
        ensures orderly { IsOrderly self.new }
    {
        self.make(
            client,
            ZoneCallOf::Store {
                address,
                word,
                value,
            },
        )?;
        Ok(())
    }

    /// Isolates the next page, which then waits after the others. It opens a round where none is open, and the seat notes its answer.
    ///
    /// Refused as JournalFull, as `Zone::isolate_next` is. The round is opened even then, and the seat notes the refusal.
    pub fn scan(&mut self) -> Result<Scanned, WorldError>
        ensures refused { OnErr result (scan_refusal self.old ≡ Some ZoneError.JournalFull) }
        ensures error { IfErr result (λ error. error ≡ WorldError.Zone ZoneError.JournalFull) }
        ensures err { OnErr result (self.new ≡ scan_stopped self.old) }
        ensures room { OnOk result (scan_refusal self.old ≡ None) }
        ensures found { IfOk result (λ found. found ≡ scan_answer self.old) }
        ensures ok { OnOk result (self.new ≡ scanned self.old) }
        ensures orderly { IsOrderly self.new }
    {
        self.open_round();
        self.scan_next()
    }

    /// Opens a round where none is open.
    fn open_round(&mut self)
        ensures round { self.new ≡ round_opened self.old }
        ensures orderly { IsOrderly self.new }
    {
        if self.is_open {
            return;
        }
        self.zone.begin_round(&mut self.scan);
        self.is_open = true;
    }

    /// Isolates the next page of the open round.
    fn scan_next(&mut self) -> Result<Scanned, WorldError>
        requires open { self.old.is_open ≡ true }
        ensures refused { OnErr result (isolate_refusal self.old.zone ≡ Some ZoneError.JournalFull) }
        ensures error { IfErr result (λ error. error ≡ WorldError.Zone ZoneError.JournalFull) }
        ensures err { OnErr result (self.new ≡ record self.old { scan = seat_full self.old.scan }) }
        ensures room { OnOk result (isolate_refusal self.old.zone ≡ None) }
        ensures found { IfOk result (λ found. found ≡ scanned_by self.old.zone (next_pair self.old.zone)) }
        ensures ok { OnOk result (self.new ≡ isolated_by self.old (next_pair self.old.zone)) }
        ensures orderly { IsOrderly self.new }
    {
        match self.zone.isolate_next(&mut self.scan) {
            Ok(Next::Page(page)) => {
                let serial = page.serial();
                self.waiting.push_back_reserved(page);
                Ok(Scanned::Serial(serial))
            }
            Ok(Next::Met) => Ok(Scanned::Met),
            Err(error) => Err(WorldError::Zone(error)),
        }
    }

    /// An empty hand takes the page that has waited longest, and its serial is the answer. Refused as Hand where the hand
    /// isn't empty or no page waits.
    pub fn take(&mut self, hand: HandNo) -> Result<Serial, WorldError>
        ensures refused { OnErr result (take_step self.old hand ≡ None) }
        ensures hand { IfErr result (λ error. error ≡ WorldError.Hand) }
        ensures err { OnErr result (self.new ≡ self.old) }
        ensures ok { IfOk result (λ serial. take_step self.old hand ≡ Some (serial, self.new)) }
        ensures least { IfOk result (λ serial. (waiting : ℕ) → IsTrue (waits self.old waiting) → serial ≤ waiting) }
        ensures orderly { IsOrderly self.new }
    {
        if !self.hands.is_empty(hand) {
            return Err(WorldError::Hand);
        }
        let Some(page) = self.waiting.pop_front() else {
            return Err(WorldError::Hand);
        };
        let serial = page.serial();
        self.hands.put(hand, Held::Page(page));
        Ok(serial)
    }

    /// A hand with a page copies it, and has the copy instead of the page. Refused as Hand where it has no page.
    pub fn copy(&mut self, hand: HandNo) -> Result<(), WorldError>
        ensures refused { OnErr result (copy_step self.old hand ≡ None) }
        ensures hand { IfErr result (λ error. error ≡ WorldError.Hand) }
        ensures err { OnErr result (self.new ≡ self.old) }
        ensures ok { OnOk result (copy_step self.old hand ≡ Some self.new) }
        ensures orderly { IsOrderly self.new }
    {
        let Some(page) = self.hands.page_from(hand) else {
            return Err(WorldError::Hand);
        };
        self.hands.put(hand, Held::Copy(page.copy_into_new()));
        Ok(())
    }

    /// A hand with a copy brings it to the zone, which ends the move of the page. The hand is empty afterwards. Refused
    /// as Hand where it has no copy.
    pub fn finish(&mut self, hand: HandNo) -> Result<Finished, WorldError>
        ensures refused { OnErr result (finish_step self.old hand ≡ None) }
        ensures hand { IfErr result (λ error. error ≡ WorldError.Hand) }
        ensures err { OnErr result (self.new ≡ self.old) }
        ensures ok { IfOk result (λ finished. finish_step self.old hand ≡ Some (finished, self.new)) }
        ensures orderly { IsOrderly self.new }
    {
        let Some(copy) = self.hands.copy_from(hand) else {
            return Err(WorldError::Hand);
        };
        Ok(finish_in(&mut self.zone, &mut self.ends, copy))
    }

    /// Closes the round: puts back the pages that wait, in order, and answers how many there are. Refused as Hand where
    /// some hand isn't empty.
    pub fn shut(&mut self) -> Result<u32, WorldError>
        ensures refused { OnErr result (shut_step self.old ≡ None) }
        ensures hand { IfErr result (λ error. error ≡ WorldError.Hand) }
        ensures err { OnErr result (self.new ≡ self.old) }
        ensures ok { IfOk result (λ count. shut_step self.old ≡ Some (count, self.new)) }
        ensures orderly { IsOrderly self.new }
    {
        if !self.hands.are_empty() {
            return Err(WorldError::Hand);
        }
        let count = put_all_back_in(&mut self.zone, &mut self.ends, &mut self.waiting);
        self.is_open = false;
        Ok(count)
    }

    /// Takes the world apart into its zone, its seats and its rest. While a hand round is open this is refused, and the
    /// world is handed back unchanged.
    pub fn split(self) -> Result<(ZoneInOf<W, Z>, SeatsIn<Z>, Rest<W>), World<W, Z>>
        ensures refused { IsErr result ↔ (self.is_open ≡ true) }
        ensures err { IfErr result (λ world. world ≡ self) }
        ensures zone { IfOk result (λ parts. parts.0 ≡ self.zone) }
        ensures scan { IfOk result (λ parts. parts.1.scan ≡ self.scan) }
        ensures ends { IfOk result (λ parts. parts.1.ends ≡ self.ends) }
        ensures whole { IfOk result (λ parts. parts.1.ends.parts ≡ 64) }
        ensures audit { IfOk result (λ parts. audit_refusal parts.0 parts.1.ends ≡ None) }
        ensures rest { IfOk result (λ parts. parts.2 ≡ self.zone.blocks) }
    {
        if self.is_open {
            return Err(self);
        }
        let World {
            zone,
            scan,
            ends,
            waiting,
            hands: _hands,
            is_open: _,
        } = self;
        Ok((zone, Seats { scan, ends }, Rest { waiting }))
    }

    /// Makes a world of a zone with its seats. An audit of these has to be Ok, so no page is moving, and the rest has to fit
    /// the number of pageblocks that the zone has.
    pub fn join(zone: ZoneInOf<W, Z>, seats: SeatsIn<Z>, rest: Rest<W>) -> World<W, Z>
        requires whole { audit_refusal zone seats.ends ≡ None }
        requires rest { rest ≡ zone.blocks }
        ensures world { result ≡ world_closed zone seats.scan seats.ends }
        ensures orderly { IsOrderly result }
    {
        prove!(rest.blocks() == zone.blocks());
        let Seats { scan, ends } = seats;
        World {
            zone,
            scan,
            ends,
            waiting: rest.waiting,
            hands: Hands::new(),
            is_open: false,
        }
    }
}
