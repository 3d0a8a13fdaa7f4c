//! A zone in memory of its caller, which lends the words of its blocks.

ghost use Rattle.std.specs.Prelude.{◌≡◌, ◌<◌, ◌≤◌, ◌*◌, Some, length, replicate, IsTrue, IfErr, IfOk, IfSome, OnErr, OnOk};
ghost use Rattle.std.specs.FinSet as set;
ghost use Rattle.std.specs.Option.{option_map};
ghost use Rattle.std.specs.Result.{result_err};
ghost use Rattle.compactd_c.specs.Answers.{IsMade};
ghost use Rattle.compactd_c.specs.Ranges.{address_of};
ghost use Rattle.compactd_c.specs.Kinds.{IsPageSize};
ghost use Rattle.compactd_c.specs.Memory.{back_refusal, block_refusal, end_refusal, page_back_refusal, page_words_refusal};
ghost use Rattle.state_core.specs.Bulk.{values_at};
ghost use Rattle.state_core.specs.Contents.{contents_of};
ghost use Rattle.state_core.specs.Lending.{block_lent, block_place, block_returned, page_lent, page_place, page_returned, LendsNone};
ghost use Rattle.state_core.specs.Opening.{IsAllowed, opened_in, places_of};

use super::{Kind, Zone, lowest};
use crate::ranges::{address, block, of_client};
use row_core::Row;
use state_core::{ZoneError, ZoneSize};
use std::alloc::Global;
use zone_core::BareZone;

impl Zone {
    /// An empty zone of any size in memory of its caller, whose words are all 0 where it `is_blank`. A zone that isn't opened gives the
    /// memory back.
    pub(crate) fn open_in(
        alloc: Global,
        page_words: u32,
        size: ZoneSize,
        places: Option<u32>,
        memory: Row,
        is_blank: bool,
    ) -> Result<Zone, (ZoneError, Row)>
        requires { IsTrue is_blank → memory.words ≡ replicate (length memory.words) 0 }
        ensures range { ¬ (IsPageSize page_words × IsAllowed size places × (length memory.words ≡ 512 * size.blocks * page_words)) → result ≡ Err (ZoneError.Range, memory) }
        ensures memory { IsPageSize page_words → IsAllowed size places → length memory.words ≡ 512 * size.blocks * page_words → IfErr result (λ back. back.0 ≡ ZoneError.Memory) }
        ensures back { IfErr result (λ back. (back.1.at ≡ memory.at) × (length back.1.words ≡ length memory.words)) }
        ensures zone { IfOk result (λ zone. zone ≡ opened_in memory.at page_words 0 size (places_of places)) }
    {
        let kind = match page_words {
            8 => Kind::Small(BareZone::open_in(alloc, lowest(), size, places, memory, is_blank)?),
            512 => Kind::Large(BareZone::open_in(alloc, lowest(), size, places, memory, is_blank)?),
            _ => return Err((ZoneError::Range, memory)),
        };
        Ok(Zone { kind })
    }

    /// Why the zone doesn't give its memory back, if it doesn't.
    pub(crate) fn end_refusal(&self) -> Option<ZoneError>
        ensures { result ≡ end_refusal self.now }
    {
        of_zone!(&self.kind, zone => end_refusal(zone))
    }

    /// Ends the zone, no words of which may be lent, and gives back the memory of its caller, if it lies in such memory.
    pub(crate) fn end(self) -> Option<Row>
        requires { LendsNone self }
        ensures at { option_map (λ row. row.at) result ≡ self.memory }
        ensures count { IfSome result (λ row. length row.words ≡ 512 * self.blocks * self.page_size) }
        ensures some { 0 < self.blocks * self.page_size }
    {
        of_zone!(self.kind, zone => zone.end())
    }

    /// Lends the words of a block that is handed out.
    pub(crate) fn lend_block(&mut self, first: u32, order: u32) -> Result<Row, ZoneError>
        ensures made { IsMade (block_refusal first order) (λ z. block_lent z first) self.old self.new result }
        ensures words { IfOk result (λ row. row.words ≡ contents_of self.old first) }
        ensures some { IfOk result (λ row. 0 < length row.words) }
        ensures place { IfOk result (λ row. Some row.at ≡ block_place self.old first) }
    {
        let (first, order) = block(first, order).ok_or(ZoneError::Range)?;
        of_zone!(&mut self.kind, zone => zone.lend_block(first, order))
    }

    /// Takes the words of a block back, which were lent. Where they aren't taken, they are answered.
    pub(crate) fn return_block(
        &mut self,
        first: u32,
        order: u32,
        row: Row,
    ) -> Result<(), (ZoneError, Row)>
        requires { Some row.at ≡ block_place self.old first }
        ensures refused { option_map (λ back. back.0) (result_err result) ≡ back_refusal first order (Some row) self.old }
        ensures row { IfErr result (λ back. back.1 ≡ row) }
        ensures err { OnErr result (self.new ≡ self.old) }
        ensures ok { OnOk result (self.new ≡ block_returned self.old first row.words) }
    {
        let Some((first, order)) = block(first, order) else {
            return Err((ZoneError::Range, row));
        };
        if row.len() != order.frames() as usize * self.page_words() {
            return Err((ZoneError::Range, row));
        }
        of_zone!(&mut self.kind, zone => zone.take_block_back(first, order, row))
    }

    /// Lends the words of the page that an address names, which is pinned.
    pub(crate) fn lend_page(&mut self, space: u32, vpage: u32) -> Result<Row, ZoneError>
        ensures made { IsMade (page_words_refusal space vpage) (λ z. page_lent z (address_of space vpage)) self.old self.new result }
        ensures words { IfOk result (λ row. row.words ≡ values_at self.old (address_of space vpage) 0 self.old.page_size) }
        ensures some { IfOk result (λ row. 0 < length row.words) }
        ensures place { IfOk result (λ row. Some row.at ≡ page_place self.old (address_of space vpage)) }
    {
        let address = address(space, vpage).ok_or(ZoneError::Range)?;
        of_zone!(&mut self.kind, zone => zone.lend_page(address))
    }

    /// Takes the words of a page back, which were lent. Where they aren't taken, they are answered.
    pub(crate) fn return_page(
        &mut self,
        client: u32,
        space: u32,
        vpage: u32,
        row: Row,
    ) -> Result<(), (ZoneError, Row)>
        requires { Some row.at ≡ page_place self.old (address_of space vpage) }
        ensures refused { option_map (λ back. back.0) (result_err result) ≡ page_back_refusal client space vpage (Some row) self.old }
        ensures row { IfErr result (λ back. back.1 ≡ row) }
        ensures err { OnErr result (self.new ≡ self.old) }
        ensures ok { OnOk result (self.new ≡ page_returned self.old client (address_of space vpage) row.words) }
    {
        let Some((client, address)) = of_client(client, space, vpage) else {
            return Err((ZoneError::Range, row));
        };
        if row.len() != self.page_words() {
            return Err((ZoneError::Range, row));
        }
        of_zone!(&mut self.kind, zone => zone.take_page_back(client, address, row))
    }

    fn page_words(&self) -> usize
        ensures size { result ≡ self.now.page_size }
        ensures most { result ≤ 512 }
    {
        of_zone!(&self.kind, zone => zone.page_words())
    }
}

fn end_refusal<const W: usize>(zone: &BareZone<W>) -> Option<ZoneError>
    ensures { result ≡ end_refusal zone.now }
{
    if zone.owns_memory() {
        Some(ZoneError::OwnMemory)
    } else if zone.lends_none() {
        None
    } else {
        Some(ZoneError::Lent)
    }
}
