ghost use Rattle.std.specs.Prelude.{◌≡◌, ◌/◌, length, Some, None, IsTrue, IfOk, IfErr, OnOk, OnErr};
ghost use Rattle.std.specs.Result.{result_err};
ghost use Rattle.frame_core.specs.Order.{is_aligned};
ghost use Rattle.state_core.specs.HandingOut.{lowest_run, take_order_refusal, give_order_refusal, block_taken, block_given};
ghost use Rattle.state_core.specs.Valid.{IsValidZone};
ghost use Rattle.zone_core.specs.ZoneIdentity.{HasIdentity};
ghost use Rattle.huge_core.specs.Huge.{IsHandedOut, IsTakenBack, IsRefusedBack, IsRead, IsWritten, IsRefusedWords};

use frame_core::{BlockNo, FrameNo, Order, block_of};
use round_core::{SharedZone, ZoneIdentity};
use std::marker::Model;
use std::sync::Wait;
use zone_core::{Opening, ZoneError, ZoneIn};

/// A block of frames that a zone handed out. It can't be cloned. A block that is dropped stays handed out.
#[must_use]
#[derive(Drop, Debug)]
pub struct Huge {
    frame: FrameNo,
    order: Order,
}

impl Model for Huge {
    ghost use Rattle.std.specs.Prelude.{◌≡◌, true};
    ghost use Rattle.frame_core.specs.Order.{is_aligned};
    ghost use Rattle.huge_core.specs.Huge.{Huge as Seen};

    ghost Value = { Seen };

    ghost view = { λ h. record { frame = h.frame; order = h.order } };

    ghost invariant = { λ h. is_aligned h.order h.frame ≡ true };
}

impl Huge {
    /// Takes the lowest free block of an order.
    pub(crate) fn take<Z: Opening>(zone: &mut ZoneIn<Z>, order: Order) -> Result<Huge, ZoneError>
        ensures refused { result_err result ≡ take_order_refusal zone.old order }
        ensures err { OnErr result (zone.new ≡ zone.old) }
        ensures order { IfOk result (λ huge. huge.order ≡ order) }
        ensures lowest { IfOk result (λ huge. lowest_run zone.old order ≡ Some huge.frame) }
        ensures ok { IfOk result (λ huge. zone.new ≡ block_taken zone.old huge.frame order) }
        ensures handed_out { IfOk result IsHandedOut }
        ensures identity { HasIdentity zone.old.number zone.old.blocks zone.new }
        ensures valid { IsValidZone zone.new }
    {
        let frame = zone.take_order(order)?;
        Ok(Huge { frame, order })
    }

    /// Gives the block back to the zone. Where the zone refuses, the block is handed back.
    fn give<Z: Opening>(self, zone: &mut ZoneIn<Z>) -> Result<(), (ZoneError, Huge)>
        ensures refused { IfErr result (λ refused. give_order_refusal zone.old self.frame self.order ≡ Some refused.0) }
        ensures back { IfErr result (λ refused. refused.1 ≡ self) }
        ensures err { OnErr result (zone.new ≡ zone.old) }
        ensures accepted { OnOk result (give_order_refusal zone.old self.frame self.order ≡ None) }
        ensures ok { OnOk result (zone.new ≡ block_given zone.old self.frame self.order) }
        ensures identity { HasIdentity zone.old.number zone.old.blocks zone.new }
        ensures valid { IsValidZone zone.new }
    {
        match zone.give_order(self.frame, self.order) {
            Ok(()) => Ok(()),
            Err(error) => Err((error, self)),
        }
    }

    /// Reads words of the block, from one on, into `values`.
    ///
    /// A word has 64 bits. A block has the words of its frames, one frame after the other: the words 0 to 2^order * 8 - 1. A
    /// fresh block reads as zeros: what was written is gone once the block is given back. It waits for nothing but the lock. A
    /// user who has the zone alone calls `Zone::read_block`, by `frame()` and `order()`.
    ///
    /// Refused as NotHuge where the zone hasn't handed the block out, or took it back by its number, or as Range where the words
    /// go past its last one. Then `values` are as they were.
    pub fn read<K: ZoneIdentity, Z: Opening, R: Wait>(
        &self,
        rt: &R,
        shared: &SharedZone<K, Z>,
        from: usize,
        values: &mut [u64],
    ) -> Result<(), ZoneError>
        ensures refused { IfErr result (IsRefusedWords K.number K.blocks self.now from (length values.old)) }
        ensures err { OnErr result (values.new ≡ values.old) }
        ensures ok { OnOk result (IsRead K.number K.blocks self.now from (length values.old) values.new) }
    {
        let mut room = shared.lock(rt);
        room.zone.read_block(self.frame, self.order, from, values)
    }

    /// Writes words of the block, from one on. No other word of the zone changes. It waits for nothing but the lock. A user who has
    /// the zone alone calls `Zone::write_block`, by `frame()` and `order()`.
    ///
    /// Refused as NotHuge where the zone hasn't handed the block out, or took it back by its number, or as Range where the words
    /// go past its last one. Then the zone is as it was.
    pub fn write<K: ZoneIdentity, Z: Opening, R: Wait>(
        &mut self,
        rt: &R,
        shared: &SharedZone<K, Z>,
        from: usize,
        values: &[u64],
    ) -> Result<(), ZoneError>
        ensures refused { IfErr result (IsRefusedWords K.number K.blocks self.old from (length values.now)) }
        ensures ok { OnOk result (IsWritten K.number K.blocks self.old from values.now) }
        ensures block { self.new ≡ self.old }
    {
        let mut room = shared.lock(rt);
        room.zone.write_block(self.frame, self.order, from, values)
    }

    /// The first frame of the block, which has 2^order frames from there on.
    pub fn frame(&self) -> FrameNo
        ensures value { result ≡ self.now.frame }
        ensures aligned { IsTrue (is_aligned self.now.order result) }
    {
        self.frame
    }

    /// The order of the block, 3 to 9: it has 2^order frames.
    pub fn order(&self) -> Order
        ensures { result ≡ self.now.order }
    {
        self.order
    }

    /// The pageblock that the block is in.
    pub fn block(&self) -> BlockNo
        ensures { result ≡ self.now.frame / 512 }
    {
        block_of(self.frame)
    }

    /// The first frame of the block and its order. `Zone::give_order` takes it back by these.
    pub fn into_parts(self) -> (FrameNo, Order)
        ensures frame { result.0 ≡ self.frame }
        ensures order { result.1 ≡ self.order }
        ensures aligned { IsTrue (is_aligned result.1 result.0) }
    {
        (self.frame, self.order)
    }

    /// The pageblock that the block is in. `Zone::give_huge` takes it back by this number where its order is 9.
    pub fn into_block(self) -> BlockNo
        ensures { result ≡ self.frame / 512 }
    {
        self.block()
    }
}

/// Gives a block back to the zone that handed it out. Where the zone refuses, the block is handed back with the error, and the zone
/// is as it was.
///
/// Refused as Range where the zone has no such block, as JournalFull, or as NotHuge where the zone hasn't handed it out, or took it
/// back by its number.
pub fn give<K: ZoneIdentity, Z: Opening, R: Wait>(
    rt: &R,
    shared: &SharedZone<K, Z>,
    huge: Huge,
) -> Result<(), (ZoneError, Huge)>
    ensures ok { OnOk result (IsTakenBack K.number K.blocks huge) }
    ensures refused { IfErr result (λ refused. IsRefusedBack K.number K.blocks huge refused.0) }
    ensures back { IfErr result (λ refused. refused.1 ≡ huge) }
{
    let mut room = shared.lock(rt);
    huge.give(&mut room.zone)
}
