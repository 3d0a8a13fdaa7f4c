//! Runs of frames that workers empty.

ghost use Rattle.std.specs.Prelude.{◌≡◌, ◌↔◌, ◌^◌, IfOk, OnErr, OnOk, IsTrue};
ghost use Rattle.std.specs.Result.{result_err};
ghost use Rattle.fewest_core.specs.Sending.{next_sent};
ghost use Rattle.state_core.specs.LentMoves.{lend_move_refusal};
ghost use Rattle.state_core.specs.Valid.{IsValidZone};
ghost use Rattle.state_core.specs.ZoneState.{frame_count};
ghost use Rattle.worker_threads.specs.Runs.{AreBlocks};
ghost use Rattle.worker_threads.specs.Work.{Lends, move_out, run_refusal, runs_claimed, still_left};
ghost use Rattle.zone_core.specs.LentMoves.{HaveWords};
ghost use Rattle.zone_core.specs.ZoneIdentity.{HasIdentity};

use frame_core::{FrameNo, Order};
use std::collections::VecDeque;
use std::marker::Model;
use zone_core::{BareZone, LentMove, Next, ZoneError};

/// Runs of an order that workers empty, by their first frames, the next one first.
#[derive(Drop)]
pub struct Runs {
    order: Order,
    left: VecDeque<FrameNo>,
}

impl Model for Runs {
    ghost use Rattle.worker_threads.specs.Runs.{Runs as Seen, runs_code};

    ghost Value = { Seen };

    ghost coded = { runs_code };

    ghost view = { λ r. record { order = r.order; left = r.left.items } };
}

impl Runs {
    /// The runs with these first frames, in this order.
    pub fn new(order: Order, firsts: VecDeque<FrameNo>) -> Self
        ensures { result ≡ record { order = order; left = firsts.items } }
    {
        Runs {
            order,
            left: firsts,
        }
    }

    /// Whether a block of their order can begin at each of them.
    pub(crate) fn are_blocks<const W: usize>(&self, zone: &BareZone<W>) -> bool
        ensures { IsTrue result ↔ AreBlocks (frame_count zone.now) self.now }
    {
        for place in 0..self.left.len() {
            if zone.claimed_frames(self.left[place], self.order).is_none() {
                return false;
            }
        }
        true
    }

    /// Claims the free frames of each run.
    pub(crate) fn claim<const W: usize>(&self, zone: &mut BareZone<W>)
        requires blocks { AreBlocks (frame_count zone.old) self.now }
        ensures claimed { zone.new ≡ runs_claimed (2 ^ self.now.order) self.now.left zone.old }
        ensures identity { HasIdentity zone.old.number zone.old.blocks zone.new }
        ensures valid { IsValidZone zone.old → IsValidZone zone.new }
    {
        for place in 0..self.left.len() {
            // A step without moves.
            if zone.empty_some(self.left[place], self.order, 0).is_err() {
                unreachable!();
            }
        }
    }

    /// Isolates the page that goes next out of the runs, and lends the words of both its frames. Runs that no page can leave are done with.
    pub(crate) fn lend_next<const W: usize>(
        &mut self,
        zone: &mut BareZone<W>,
    ) -> Result<Next<LentMove>, ZoneError>
        requires blocks { AreBlocks (frame_count zone.old) self.old }
        ensures refused { result_err result ≡ run_refusal self.old.left (lend_move_refusal zone.old) }
        ensures err { OnErr result ((zone.new ≡ zone.old) × (self.new ≡ self.old)) }
        ensures lent { IfOk result (Lends (move_out (2 ^ self.old.order) zone.old self.old.left) zone.old zone.new) }
        ensures count { IfOk result (HaveWords W) }
        ensures ok { OnOk result (zone.new ≡ next_sent zone.old (move_out (2 ^ self.old.order) zone.old self.old.left)) }
        ensures left { OnOk result (self.new ≡ record self.old { left = still_left (2 ^ self.old.order) zone.old self.old.left }) }
        ensures identity { HasIdentity zone.old.number zone.old.blocks zone.new }
        ensures valid { IsValidZone zone.old → IsValidZone zone.new }
    {
        while let Some(first) = self.left.front() {
            if let Next::Page(lent) = zone.lend_move_from(*first, self.order)? {
                return Ok(Next::Page(lent));
            }
            self.left.pop_front();
        }
        Ok(Next::Met)
    }
}
