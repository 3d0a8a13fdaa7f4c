//! What C calls to be told how the free frames of a zone lie.

ghost use Rattle.std.specs.Prelude.{◌≡◌, nat_lt, None};
ghost use Rattle.compactd_c.specs.Answers.{IsAsked};
ghost use Rattle.compactd_c.specs.Ranges.{ranged};
ghost use Rattle.zone_core.specs.FreeRuns.{fragmentation, maximal_runs};

use crate::calls::told;
use crate::pool::Pool;

/// Tells how many free runs of 2^order frames there are that are aligned to their size and lie in no larger one: as Linux counts them in
/// /proc/buddyinfo, for the orders 0 to 9.
///
/// Refused as RANGE, or as CLOSED.
#[unsafe(no_mangle)]
pub extern "C" fn compactd_free_runs(pool: &mut Pool, order: u32, runs: &mut u32) -> u32
    ensures { IsAsked (λ z. ranged (nat_lt order 10) None) (λ z runs. runs ≡ maximal_runs z order) pool.old.zone pool.new.zone result runs.old runs.new }
{
    let zone = open_zone!(pool);
    told(zone.free_runs(order), runs)
}

/// Tells the fragmentation index of an order, 0 to 9, in thousandths, as Linux does in /sys/kernel/debug/extfrag/extfrag_index.
///
/// Refused as RANGE, or as CLOSED.
#[unsafe(no_mangle)]
pub extern "C" fn compactd_fragmentation(pool: &mut Pool, order: u32, index: &mut i32) -> u32
    ensures { IsAsked (λ z. ranged (nat_lt order 10) None) (λ z index. index ≡ fragmentation z order) pool.old.zone pool.new.zone result index.old index.new }
{
    let zone = open_zone!(pool);
    told(zone.fragmentation(order), index)
}
