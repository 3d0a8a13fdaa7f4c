//! The calls of a client, and the words of blocks.

ghost use Rattle.std.specs.Prelude.{◌≡◌, ◌&&◌, nat_lt, length, unwrap_or, IfOk, OnErr, OnOk};
ghost use Rattle.std.specs.Result.{result_err};
ghost use Rattle.compactd_c.specs.Answers.{IsMade};
ghost use Rattle.compactd_c.specs.Ranges.{address_of, is_address, is_block, is_client, is_order, ranged};
ghost use Rattle.state_core.specs.Access.{access_refusal, loaded, stored, value_at};
ghost use Rattle.state_core.specs.Bulk.{bulk_refusal, loaded_all, stored_all, values_at};
ghost use Rattle.state_core.specs.Contents.{contents_from, contents_refusal, contents_written};
ghost use Rattle.state_core.specs.HandingOut.{block_given, block_taken, give_order_refusal, lowest_run, take_order_refusal};
ghost use Rattle.state_core.specs.Mapping.{map_at_refusal, map_refusal, mapped};
ghost use Rattle.state_core.specs.Marking.{block_marked, block_unmarked, mark_refusal, unmark_refusal};
ghost use Rattle.state_core.specs.Pinning.{pin_refusal, pinned, unpin_refusal, unpinned};
ghost use Rattle.state_core.specs.Sharing.{share_refusal, shared};
ghost use Rattle.state_core.specs.Unmapping.{unmap_refusal, unmapped};
ghost use Rattle.state_core.specs.ZoneState.{frame_for};

use super::{Kind, Zone};
use crate::ranges::{address, block, of_client, word_of};
use frame_core::{BlockNo, FrameNo, Order};
use state_core::ZoneError;

impl Zone {
    /// Makes an address name a fresh page, and answers its frame.
    pub(crate) fn map(
        &mut self,
        client: u32,
        space: u32,
        vpage: u32,
        unmovable: bool,
    ) -> Result<u32, ZoneError>
        ensures made { IsMade (λ z. ranged (is_client client && is_address space vpage) (map_refusal z (address_of space vpage))) (λ z. mapped z client (address_of space vpage) unmovable (unwrap_or (frame_for z unmovable) 0)) self.old self.new result }
        ensures frame { IfOk result (λ frame. frame ≡ unwrap_or (frame_for self.old unmovable) 0) }
    {
        let (client, address) = of_client(client, space, vpage).ok_or(ZoneError::Range)?;
        let (_, frame) = of_zone!(&mut self.kind, zone => zone.map(client, address, unmovable))?;
        Ok(frame.get())
    }

    /// Makes an address name a fresh page in a given frame.
    pub(crate) fn map_at(
        &mut self,
        client: u32,
        space: u32,
        vpage: u32,
        unmovable: bool,
        frame: u32,
    ) -> Result<(), ZoneError>
        ensures { IsMade (λ z. ranged (is_client client && (is_address space vpage && nat_lt frame 16777216)) (map_at_refusal z (address_of space vpage) frame)) (λ z. mapped z client (address_of space vpage) unmovable frame) self.old self.new result }
    {
        let (client, address) = of_client(client, space, vpage).ok_or(ZoneError::Range)?;
        let frame = FrameNo::in_any_zone(frame).ok_or(ZoneError::Range)?;
        of_zone!(&mut self.kind, zone => zone.map_at(client, address, unmovable, frame))?;
        Ok(())
    }

    /// Reads a word of the page that an address names.
    pub(crate) fn load(
        &mut self,
        client: u32,
        space: u32,
        vpage: u32,
        word: u32,
    ) -> Result<u64, ZoneError>
        ensures made { IsMade (λ z. ranged (is_client client && (is_address space vpage && nat_lt word z.page_size)) (access_refusal z (address_of space vpage))) (λ z. loaded z client (address_of space vpage) word) self.old self.new result }
        ensures value { IfOk result (λ value. value ≡ value_at self.old (address_of space vpage) word) }
    {
        let (client, address) = of_client(client, space, vpage).ok_or(ZoneError::Range)?;
        of_zone!(&mut self.kind, zone => {
            let word = word_of(zone, word).ok_or(ZoneError::Range)?;
            zone.load(client, address, word)
        })
    }

    /// Writes a word of the page that an address names.
    pub(crate) fn store(
        &mut self,
        client: u32,
        space: u32,
        vpage: u32,
        word: u32,
        value: u64,
    ) -> Result<(), ZoneError>
        ensures { IsMade (λ z. ranged (is_client client && (is_address space vpage && nat_lt word z.page_size)) (access_refusal z (address_of space vpage))) (λ z. stored z client (address_of space vpage) word value) self.old self.new result }
    {
        let (client, address) = of_client(client, space, vpage).ok_or(ZoneError::Range)?;
        of_zone!(&mut self.kind, zone => {
            let word = word_of(zone, word).ok_or(ZoneError::Range)?;
            zone.store(client, address, word, value)
        })
    }

    /// Reads words of the page that an address names, from one on.
    pub(crate) fn read(
        &mut self,
        client: u32,
        space: u32,
        vpage: u32,
        from: u32,
        values: &mut [u64],
    ) -> Result<(), ZoneError>
        ensures made { IsMade (λ z. ranged (is_client client && (is_address space vpage && nat_lt from z.page_size)) (bulk_refusal z (address_of space vpage) from (length values.old))) (λ z. loaded_all z client (address_of space vpage) from (length values.old)) self.old self.new result }
        ensures values { OnOk result (values.new ≡ values_at self.old (address_of space vpage) from (length values.old)) }
        ensures kept { OnErr result (values.new ≡ values.old) }
    {
        let (client, address) = of_client(client, space, vpage).ok_or(ZoneError::Range)?;
        of_zone!(&mut self.kind, zone => {
            let from = word_of(zone, from).ok_or(ZoneError::Range)?;
            zone.read(client, address, from, values)
        })
    }

    /// Writes words of the page that an address names, from one on.
    pub(crate) fn write(
        &mut self,
        client: u32,
        space: u32,
        vpage: u32,
        from: u32,
        values: &[u64],
    ) -> Result<(), ZoneError>
        ensures { IsMade (λ z. ranged (is_client client && (is_address space vpage && nat_lt from z.page_size)) (bulk_refusal z (address_of space vpage) from (length values.now))) (λ z. stored_all z client (address_of space vpage) from values.now) self.old self.new result }
    {
        let (client, address) = of_client(client, space, vpage).ok_or(ZoneError::Range)?;
        of_zone!(&mut self.kind, zone => {
            let from = word_of(zone, from).ok_or(ZoneError::Range)?;
            zone.write(client, address, from, values)
        })
    }

    /// Makes an alias name the page of an address too.
    pub(crate) fn share(
        &mut self,
        client: u32,
        space: u32,
        vpage: u32,
        alias_space: u32,
        alias_vpage: u32,
    ) -> Result<(), ZoneError>
        ensures { IsMade (λ z. ranged (is_client client && (is_address space vpage && is_address alias_space alias_vpage)) (share_refusal z (address_of space vpage) (address_of alias_space alias_vpage))) (λ z. shared z client (address_of space vpage) (address_of alias_space alias_vpage)) self.old self.new result }
    {
        let (client, named) = of_client(client, space, vpage).ok_or(ZoneError::Range)?;
        let alias = address(alias_space, alias_vpage).ok_or(ZoneError::Range)?;
        of_zone!(&mut self.kind, zone => zone.share(client, named, alias))
    }

    /// Makes an address name no page any more.
    pub(crate) fn unmap(&mut self, client: u32, space: u32, vpage: u32) -> Result<(), ZoneError>
        ensures { IsMade (λ z. ranged (is_client client && is_address space vpage) (unmap_refusal z (address_of space vpage))) (λ z. unmapped z client (address_of space vpage)) self.old self.new result }
    {
        let (client, address) = of_client(client, space, vpage).ok_or(ZoneError::Range)?;
        of_zone!(&mut self.kind, zone => zone.unmap(client, address))
    }

    /// Pins the page that an address names.
    pub(crate) fn pin(&mut self, client: u32, space: u32, vpage: u32) -> Result<(), ZoneError>
        ensures { IsMade (λ z. ranged (is_client client && is_address space vpage) (pin_refusal z (address_of space vpage))) (λ z. pinned z client (address_of space vpage)) self.old self.new result }
    {
        let (client, address) = of_client(client, space, vpage).ok_or(ZoneError::Range)?;
        of_zone!(&mut self.kind, zone => zone.pin(client, address))
    }

    /// Takes a pin off the page that an address names.
    pub(crate) fn unpin(&mut self, client: u32, space: u32, vpage: u32) -> Result<(), ZoneError>
        ensures { IsMade (λ z. ranged (is_client client && is_address space vpage) (unpin_refusal z (address_of space vpage))) (λ z. unpinned z client (address_of space vpage)) self.old self.new result }
    {
        let (client, address) = of_client(client, space, vpage).ok_or(ZoneError::Range)?;
        of_zone!(&mut self.kind, zone => zone.unpin(client, address))
    }

    /// Hands out the lowest free block of an order, and answers its first frame.
    pub(crate) fn take_order(&mut self, order: u32) -> Result<u32, ZoneError>
        ensures made { IsMade (λ z. ranged (is_order order) (take_order_refusal z order)) (λ z. block_taken z (unwrap_or (lowest_run z order) 0) order) self.old self.new result }
        ensures first { IfOk result (λ first. first ≡ unwrap_or (lowest_run self.old order) 0) }
    {
        let order = Order::new(order).ok_or(ZoneError::Range)?;
        let first = of_zone!(&mut self.kind, zone => zone.take_order(order))?;
        Ok(first.get())
    }

    /// Takes back a block that was handed out.
    pub(crate) fn give_order(&mut self, first: u32, order: u32) -> Result<(), ZoneError>
        ensures { IsMade (λ z. ranged (is_block first order) (give_order_refusal z first order)) (λ z. block_given z first order) self.old self.new result }
    {
        let (first, order) = block(first, order).ok_or(ZoneError::Range)?;
        of_zone!(&mut self.kind, zone => zone.give_order(first, order))
    }

    /// Reads words of a block that is handed out, from one on.
    pub(crate) fn read_block(
        &mut self,
        first: u32,
        order: u32,
        from: usize,
        values: &mut [u64],
    ) -> Result<(), ZoneError>
        ensures refused { result_err result ≡ ranged (is_block first order) (contents_refusal self.old first order from (length values.old)) }
        ensures err { OnErr result (values.new ≡ values.old) }
        ensures values { OnOk result (values.new ≡ contents_from self.old first from (length values.old)) }
        ensures same { self.new ≡ self.old }
    {
        let (first, order) = block(first, order).ok_or(ZoneError::Range)?;
        of_zone!(&mut self.kind, zone => zone.read_block(first, order, from, values))
    }

    /// Writes words of a block that is handed out, from one on.
    pub(crate) fn write_block(
        &mut self,
        first: u32,
        order: u32,
        from: usize,
        values: &[u64],
    ) -> Result<(), ZoneError>
        ensures { IsMade (λ z. ranged (is_block first order) (contents_refusal z first order from (length values.now))) (λ z. contents_written z first from values.now) self.old self.new result }
    {
        let (first, order) = block(first, order).ok_or(ZoneError::Range)?;
        of_zone!(&mut self.kind, zone => zone.write_block(first, order, from, values))
    }

    /// Marks a pageblock.
    pub(crate) fn mark(&mut self, block: u32) -> Result<(), ZoneError>
        ensures { IsMade (λ z. ranged (nat_lt block 32768) (mark_refusal z block)) (λ z. block_marked z block) self.old self.new result }
    {
        let block = BlockNo::in_any_zone(block).ok_or(ZoneError::Range)?;
        of_zone!(&mut self.kind, zone => zone.mark(block))
    }

    /// Takes the mark of a pageblock off.
    pub(crate) fn unmark(&mut self, block: u32) -> Result<(), ZoneError>
        ensures { IsMade (λ z. ranged (nat_lt block 32768) (unmark_refusal z block)) (λ z. block_unmarked z block) self.old self.new result }
    {
        let block = BlockNo::in_any_zone(block).ok_or(ZoneError::Range)?;
        of_zone!(&mut self.kind, zone => zone.unmark(block))
    }
}
