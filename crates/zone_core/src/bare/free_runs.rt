//! Free runs of frames by order, and how far free memory is fragmented. Each of these questions looks at words of sets, each of which
//! tells of 64 frames or of 64 runs.

ghost use Rattle.std.specs.Prelude.{◌≡◌, ◌+◌, ◌*◌, ◌/◌, ◌≤◌, ◌<◌, nat_le, if◌then◌else◌, Some, None, pos, ◌-ℤ◌};
ghost use Rattle.frame_core.specs.Below.{some_below};
ghost use Rattle.state_core.specs.HandingOut.{is_run};
ghost use Rattle.state_core.specs.ZoneState.{frame_count};
ghost use Rattle.zone_core.specs.FreeRuns.{all_runs, fragmentation, free_frames, maximal_runs};

use crate::bare::BareZone;

impl<const W: usize> BareZone<W> {
    /// How many runs of 2^order free frames there are that are aligned to their size and lie in no larger one, as Linux counts them in
    /// /proc/buddyinfo; none where the order is above 9, which a pageblock has. For each 64 frames it looks at a few words of sets.
    pub fn free_runs(&self, order: u32) -> Option<u32>
        ensures { result ≡ (if nat_le order 9 then Some (maximal_runs self.now order) else None) }
    {
        if order > 9 {
            return None;
        }
        Some(self.count_maximal_runs(order))
    }

    /// The fragmentation index of an order, in thousandths, as Linux tells it in /sys/kernel/debug/extfrag/extfrag_index; none where the
    /// order is above 9. It is -1000 where a run of the order is free, and 0 where no frame is. Else it is near 0 where frames are lacking,
    /// and near 1000 where they are free and scattered. For each 64 frames it looks at a few words of sets.
    pub fn fragmentation(&self, order: u32) -> Option<i32>
        ensures { result ≡ (if nat_le order 9 then Some (fragmentation self.now order) else None) }
    {
        if order > 9 {
            return None;
        }
        let runs = self.count_all_runs();
        if runs == 0 {
            return Some(0);
        }
        if self.has_run(order) {
            return Some(-1000);
        }
        Some(scattered(self.free_frames(), 1 << order, runs))
    }

    fn free_frames(&self) -> u32
        ensures { result ≡ free_frames self.now }
    {
        self.tables.info().free
    }

    /// How many free runs there are that lie in no larger one: as many as there are free frames, but one fewer for each free run of two
    /// frames or more, since it takes the place of its two halves.
    fn count_all_runs(&self) -> u32
        ensures runs { result ≡ all_runs self.now }
    {
        let mut runs = self.free_frames();
        for order in 0..9 {
            runs -= self.tables.count_runs(order + 1);
        }
        runs
    }

    /// How many free runs of an order lie in no larger one: all of them, without the two halves of each of the next order.
    fn count_maximal_runs(&self, order: u32) -> u32
        requires { order ≤ 9 }
        ensures { result ≡ maximal_runs self.now order }
    {
        let runs = self.tables.count_runs(order);
        if order == 9 {
            return runs;
        }
        runs - 2 * self.tables.count_runs(order + 1)
    }

    /// Whether some run of this order is free.
    fn has_run(&self, order: u32) -> bool
        requires { order ≤ 9 }
        ensures { result ≡ some_below (is_run self.now order) (frame_count self.now) }
    {
        self.tables.count_runs(order) > 0
    }
}

/// The fragmentation index where no run of this many frames is free, but some runs of fewer.
fn scattered(free: u32, wanted: u32, runs: u32) -> i32
    requires free { free ≤ 512 * runs }
    requires wanted { 0 < wanted }
    requires runs { 0 < runs }
    ensures { result ≡ pos 1000 -ℤ pos ((1000 + 1000 * free / wanted) / runs) }
{
    let thousandths = 1000 + 1000 * u64::from(free) / u64::from(wanted);
    1000 - (thousandths / u64::from(runs)) as i32
}
