ghost use Rattle.std.specs.Prelude.{◌≡◌, ◌+◌, ◌≤◌, true, IfOk, OnOk, OnErr};
ghost use Rattle.std.specs.Result.{result_err};
ghost use Rattle.frame_core.specs.History.{pins};
ghost use Rattle.zone_core.specs.ByHand.{by_hand};
ghost use Rattle.zone_core.specs.Outcome.{IsSame};
ghost use Rattle.state_core.specs.Ending.{IsOwnCopy, moved_to_target};
ghost use Rattle.state_core.specs.Valid.{IsValidZone};
ghost use Rattle.state_core.specs.Packed.{IsPacked};
ghost use Rattle.state_core.specs.Pairs.{is_calm};
ghost use Rattle.zone_core.specs.Seats.{audit_refusal};
ghost use Rattle.zone_core.specs.OneThread.{last_by_hand};

use crate::opening::{EndSeatIn, Opening, SeatsIn, ZoneInOf};
use crate::seats::Answered;
use frame_core::IsolatedOf;
use state_core::{Next, ZoneError};

/// Runs one round on the thread that calls, and tells why its scanner stopped: `Met`, or `JournalFull`. No other thread is
/// needed, and no memory.
///
/// Refused as Missing where a part of the end seat is missing, else as Out where a page is moving.
pub fn compact<const W: usize, Z: Opening>(
    zone: &mut ZoneInOf<W, Z>,
    seats: &mut SeatsIn<Z>,
) -> Result<Answered, ZoneError>
    requires size { W ≤ 65536 }
    ensures refused { result_err result ≡ audit_refusal zone.old seats.old.ends }
    ensures err { OnErr result ((zone.new ≡ zone.old) × (seats.new.scan ≡ seats.old.scan) × (seats.new.ends ≡ seats.old.ends)) }
    // The zone is the one after a round by hand, but for the order in which moves ended.
    ensures exact { OnOk result (IsSame (by_hand zone.old) zone.new) }
    ensures stopped { IfOk result (λ last. last ≡ last_by_hand zone.old) }
    // Where nothing was stuck and the scanners met, the zone is packed.
    ensures packed { result ≡ Ok Answered.Met → is_calm zone.old ≡ true → IsPacked zone.new }
    // The scan seat counts one round more, and the end seat the pages that were moved: none is put back.
    ensures rounds { OnOk result (seats.new.scan.rounds ≡ seats.old.scan.rounds + 1) }
    ensures last { IfOk result (λ last. seats.new.scan.last ≡ Some last) }
    ensures moved { OnOk result (seats.new.ends.moved + seats.old.scan.count ≡ seats.old.ends.moved + seats.new.scan.count) }
    ensures back { OnOk result (seats.new.ends.back ≡ seats.old.ends.back) }
    ensures valid { IsValidZone zone.new }
{
    zone.audit(&mut seats.scan, &mut seats.ends)?;
    zone.begin_round(&mut seats.scan);
    loop {
        match zone.isolate_next(&mut seats.scan) {
            Ok(Next::Page(page)) => carry(zone, &mut seats.ends, page),
            Ok(Next::Met) => return Ok(Answered::Met),
            Err(_) => return Ok(Answered::JournalFull),
        }
    }
}

/// Copies an isolated page and moves it.
fn carry<const W: usize, Z: Opening>(
    zone: &mut ZoneInOf<W, Z>,
    ends: &mut EndSeatIn<Z>,
    page: IsolatedOf<W>,
)
    requires own { IsOwnCopy zone.old page }
    requires unpinned { pins zone.old.records page.page.number ≡ 0 }
    ensures zone { zone.new ≡ moved_to_target zone.old page.entry.serial page.entry.page.number }
    ensures ends { ends.new ≡ record ends.old { moved = ends.old.moved + 1 } }
    ensures valid { IsValidZone zone.new }
{
    let Ok(_) = zone.commit(ends, page.copy_into_new()) else {
        unreachable!();
    };
}
