//! A round on the thread that calls, at once or in slices.

ghost use Rattle.std.specs.Prelude.{◌≡◌, ◌+◌, ◌≤◌, true, length};
ghost use Rattle.frame_core.specs.Moves.{moved, out};
ghost use Rattle.state_core.specs.Isolating.{isolate_refusal};
ghost use Rattle.state_core.specs.Packed.{IsPacked};
ghost use Rattle.state_core.specs.Pairs.{HaveMet};
ghost use Rattle.state_core.specs.Rounds.{round_begun};
ghost use Rattle.state_core.specs.Valid.{IsValidZone};
ghost use Rattle.state_core.specs.ZoneState.{is_quiet};
ghost use Rattle.zone_core.specs.Alone.{IsAtRest};
ghost use Rattle.zone_core.specs.ByHand.{by_hand};
ghost use Rattle.zone_core.specs.OneThread.{last_for, last_of_slice, moved_at_most, all_moved};
ghost use Rattle.zone_core.specs.Outcome.{IsSame};
ghost use Rattle.zone_core.specs.ZoneIdentity.{HasIdentity};

use crate::bare::BareZone;
use crate::seats::Answered;

/// What came of a slice of a round: how many pages were moved, and the last answer. That is `Page` where as many were moved as were
/// asked for. Else it says why there were fewer.
#[derive(Clone, Copy, Debug, PartialEq, Eq)]
pub struct Slice {
    pub moved: u32,
    pub last: Answered,
}

impl<const W: usize> BareZone<W> {
    /// Runs one round on the thread that calls. Each page that can be moved goes up into a free frame, the lowest page first: it is isolated
    /// and moved before the next one is isolated. It is copied once, from frame to frame, and nothing is compared, since nobody else could
    /// have written. A page stays where it is that is pinned or unmovable, or in a marked pageblock, and so does one that was moving before.
    ///
    /// Answers `Met` once no page that can be moved has a free frame above it, or `JournalFull` where the journal has no room for one more
    /// move.
    pub fn compact(&mut self) -> Answered
        ensures zone { self.new ≡ all_moved (round_begun self.old) }
        // Where no page was moving, it is the zone after a round by hand, but for the order in which moves ended.
        ensures exact { IsAtRest self.old → IsSame (by_hand self.old) self.new }
        ensures stopped { result ≡ last_for (isolate_refusal self.new) }
        ensures met { result ≡ Answered.Met → HaveMet self.new }
        // Where nothing was stuck and the scanners met, the zone is packed.
        ensures packed { result ≡ Answered.Met → is_quiet self.new ≡ true → length (out self.new.records) ≡ 0 → IsPacked self.new }
        ensures identity { HasIdentity self.old.number self.old.blocks self.new }
        ensures valid { IsValidZone self.new }
    {
        self.tables.begin_round();
        loop {
            if let Some(last) = self.move_next() {
                return last;
            }
        }
    }

    /// Moves the next pages of the round that was begun last, so many at most, as `compact` moves them. So a round can be made in slices,
    /// with other calls between them.
    pub fn move_pages(&mut self, most: u32) -> Slice
        ensures zone { self.new ≡ moved_at_most most self.old }
        ensures moved { moved self.new.records ≡ moved self.old.records + result.moved }
        ensures most { result.moved ≤ most }
        ensures last { result.last ≡ last_of_slice result.moved most (isolate_refusal self.new) }
        ensures met { result.last ≡ Answered.Met → HaveMet self.new }
        // Where nothing was stuck and the scanners met, the zone is packed.
        ensures packed { result.last ≡ Answered.Met → is_quiet self.new ≡ true → length (out self.new.records) ≡ 0 → IsPacked self.new }
        ensures identity { HasIdentity self.old.number self.old.blocks self.new }
    {
        for moved in 0..most {
            if let Some(last) = self.move_next() {
                return Slice { moved, last };
            }
        }
        Slice {
            moved: most,
            last: Answered::Page,
        }
    }
}
