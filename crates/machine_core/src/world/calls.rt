//! The other calls of a zone that append a record, made on the zone of a world. Each is refused as the zone's own call is.

ghost use Rattle.std.specs.Prelude.{◌≡◌, ◌*◌, length, Some, IfOk, OnOk, OnErr};
ghost use Rattle.std.specs.Result.{result_err};
ghost use Rattle.state_core.specs.Calls.{refusal_of, answer_of, after};
ghost use Rattle.state_core.specs.Bulk.{bulk_refusal, values_at, loaded_all, stored_all};
ghost use Rattle.state_core.specs.Sharing.{share_refusal, shared};
ghost use Rattle.state_core.specs.Unmapping.{unmap_refusal, unmapped};
ghost use Rattle.state_core.specs.Pinning.{pin_refusal, unpin_refusal, pinned, unpinned};
ghost use Rattle.state_core.specs.HandingOut.{lowest_run, take_order_refusal, give_order_refusal, block_taken, block_given};
ghost use Rattle.state_core.specs.Marking.{mark_refusal, unmark_refusal, block_marked, block_unmarked};
ghost use Rattle.machine_core.specs.World.{IsOrderly, with_zone};

use super::World;
use frame_core::{Address, BlockNo, ClientNo, FrameNo, Order, WordOf};
use state_core::{ZoneAnswer, ZoneCallOf, ZoneError};
use zone_core::Opening;

impl<const W: usize, Z: Opening> World<W, Z> {
    /// Makes any call of a client on the zone.
    pub fn make(&mut self, client: ClientNo, call: ZoneCallOf<W>) -> Result<ZoneAnswer, ZoneError>
        ensures refused { result_err result ≡ refusal_of call.entry self.old.zone }
        ensures err { OnErr result (self.new ≡ self.old) }
        ensures answer { IfOk result (λ answer. answer ≡ answer_of call.entry self.old.zone) }
        ensures ok { OnOk result (self.new ≡ with_zone self.old (after call.entry client self.old.zone)) }
        ensures orderly { IsOrderly self.new }
    {
        self.zone.make(client, call)
    }

    /// Reads words of the page that an address names, from one on, into `values`: as loads of these words do, one after the
    /// other. Its refusals are those of `Zone::read`.
    pub fn read(
        &mut self,
        client: ClientNo,
        address: Address,
        from: WordOf<W>,
        values: &mut [u64],
    ) -> Result<(), ZoneError>
        ensures refused { result_err result ≡ bulk_refusal self.old.zone address from.entry (length values.old) }
        ensures err { OnErr result ((self.new ≡ self.old) × (values.new ≡ values.old)) }
        ensures values { OnOk result (values.new ≡ values_at self.old.zone address from.entry (length values.old)) }
        ensures ok { OnOk result (self.new ≡ with_zone self.old (loaded_all self.old.zone client address from.entry (length values.old))) }
        ensures orderly { IsOrderly self.new }
    {
        self.zone.read(client, address, from, values)
    }

    /// Writes words of the page that an address names, from one on: as stores of these values do, one after the other. Its
    /// refusals are those of `Zone::write`.
    pub fn write(
        &mut self,
        client: ClientNo,
        address: Address,
        from: WordOf<W>,
        values: &[u64],
    ) -> Result<(), ZoneError>
        ensures refused { result_err result ≡ bulk_refusal self.old.zone address from.entry (length values.now) }
        ensures err { OnErr result (self.new ≡ self.old) }
        ensures ok { OnOk result (self.new ≡ with_zone self.old (stored_all self.old.zone client address from.entry values.now)) }
        ensures orderly { IsOrderly self.new }
    {
        self.zone.write(client, address, from, values)
    }

    /// Makes an alias name the page of an address too.
    pub fn share(
        &mut self,
        client: ClientNo,
        address: Address,
        alias: Address,
    ) -> Result<(), ZoneError>
        ensures refused { result_err result ≡ share_refusal self.old.zone address alias }
        ensures err { OnErr result (self.new ≡ self.old) }
        ensures ok { OnOk result (self.new ≡ with_zone self.old (shared self.old.zone client address alias)) }
        ensures orderly { IsOrderly self.new }
    {
        self.make(client, ZoneCallOf::Share { address, alias })?;
        Ok(())
    }

    /// Makes an address name no page any more. A page that has no address left isn't in use.
    pub fn unmap(&mut self, client: ClientNo, address: Address) -> Result<(), ZoneError>
        ensures refused { result_err result ≡ unmap_refusal self.old.zone address }
        ensures err { OnErr result (self.new ≡ self.old) }
        ensures ok { OnOk result (self.new ≡ with_zone self.old (unmapped self.old.zone client address)) }
        ensures orderly { IsOrderly self.new }
    {
        self.zone.unmap(client, address)
    }

    /// Pins the page that an address names, also while the page is moving.
    pub fn pin(&mut self, client: ClientNo, address: Address) -> Result<(), ZoneError>
        ensures refused { result_err result ≡ pin_refusal self.old.zone address }
        ensures err { OnErr result (self.new ≡ self.old) }
        ensures ok { OnOk result (self.new ≡ with_zone self.old (pinned self.old.zone client address)) }
        ensures orderly { IsOrderly self.new }
    {
        self.make(client, ZoneCallOf::Pin { address })?;
        Ok(())
    }

    /// Takes a pin off the page that an address names, also while the page is moving.
    pub fn unpin(&mut self, client: ClientNo, address: Address) -> Result<(), ZoneError>
        ensures refused { result_err result ≡ unpin_refusal self.old.zone address }
        ensures err { OnErr result (self.new ≡ self.old) }
        ensures ok { OnOk result (self.new ≡ with_zone self.old (unpinned self.old.zone client address)) }
        ensures orderly { IsOrderly self.new }
    {
        self.make(client, ZoneCallOf::Unpin { address })?;
        Ok(())
    }

    /// Hands out the lowest free block of an order, 3 to 9, and answers its first frame.
    pub fn take_order(&mut self, order: Order) -> Result<FrameNo, ZoneError>
        ensures refused { result_err result ≡ take_order_refusal self.old.zone order }
        ensures err { OnErr result (self.new ≡ self.old) }
        ensures first { IfOk result (λ first. lowest_run self.old.zone order ≡ Some first) }
        ensures ok { IfOk result (λ first. self.new ≡ with_zone self.old (block_taken self.old.zone first order)) }
        ensures orderly { IsOrderly self.new }
    {
        self.zone.take_order(order)
    }

    /// Takes back a block that was handed out, by its first frame and its order.
    pub fn give_order(&mut self, first: FrameNo, order: Order) -> Result<(), ZoneError>
        ensures refused { result_err result ≡ give_order_refusal self.old.zone first order }
        ensures err { OnErr result (self.new ≡ self.old) }
        ensures ok { OnOk result (self.new ≡ with_zone self.old (block_given self.old.zone first order)) }
        ensures orderly { IsOrderly self.new }
    {
        self.zone.give_order(first, order)
    }

    /// Hands out the lowest pageblock whose 512 frames are all free, and answers its number.
    pub fn take_huge(&mut self) -> Result<BlockNo, ZoneError>
        ensures refused { result_err result ≡ take_order_refusal self.old.zone 9 }
        ensures err { OnErr result (self.new ≡ self.old) }
        ensures block { IfOk result (λ block. lowest_run self.old.zone 9 ≡ Some (512 * block)) }
        ensures ok { IfOk result (λ block. self.new ≡ with_zone self.old (block_taken self.old.zone (512 * block) 9)) }
        ensures orderly { IsOrderly self.new }
    {
        self.zone.take_huge()
    }

    /// Takes back a pageblock that was handed out as one block.
    pub fn give_huge(&mut self, block: BlockNo) -> Result<(), ZoneError>
        ensures refused { result_err result ≡ give_order_refusal self.old.zone (512 * block) 9 }
        ensures err { OnErr result (self.new ≡ self.old) }
        ensures ok { OnOk result (self.new ≡ with_zone self.old (block_given self.old.zone (512 * block) 9)) }
        ensures orderly { IsOrderly self.new }
    {
        self.zone.give_huge(block)
    }

    /// Marks a pageblock, so that the scanners pass over it.
    pub fn mark(&mut self, block: BlockNo) -> Result<(), ZoneError>
        ensures refused { result_err result ≡ mark_refusal self.old.zone block }
        ensures err { OnErr result (self.new ≡ self.old) }
        ensures ok { OnOk result (self.new ≡ with_zone self.old (block_marked self.old.zone block)) }
        ensures orderly { IsOrderly self.new }
    {
        self.zone.mark(block)
    }

    /// Takes the mark of a pageblock off.
    pub fn unmark(&mut self, block: BlockNo) -> Result<(), ZoneError>
        ensures refused { result_err result ≡ unmark_refusal self.old.zone block }
        ensures err { OnErr result (self.new ≡ self.old) }
        ensures ok { OnOk result (self.new ≡ with_zone self.old (block_unmarked self.old.zone block)) }
        ensures orderly { IsOrderly self.new }
    {
        self.zone.unmark(block)
    }
}
