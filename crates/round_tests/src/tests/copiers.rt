use super::gates::{Plan, Until, Watch};
use super::opening::Opened;
use super::{Runtime, Trial, tries};
use frame_core::{Record, Serial};
use round_core::{Point, Round, ZoneIdentity};
use std::process::Abort;
use std::sync::Wait;
use zone_core::Opening;

const PAGES: u32 = 12;

/// The list of each copier has as many serials as it took pages.
fn assert_lists_what_it_took(rt: &impl Abort, round: &Round, watch: &Watch) {
    for (list, who) in round.by_copier.iter().zip(1..5usize) {
        assert!(rt; list.len() as u64 == watch.taken.number(who));
    }
}

fn moved_in(records: Option<&[Record]>, place: usize) -> Option<Serial> {
    let records = records?;
    match records.get(records.len().wrapping_sub(place)) {
        Some(Record::Moved { serial }) => Some(*serial),
        _ => None,
    }
}

impl<Z: Opening + ZoneIdentity + Send + Sync> Opened<Z> {
    /// A round of so many pages that is watched.
    fn watched<R: Runtime>(
        &mut self,
        rt: &R,
        copiers: usize,
        room: usize,
        watch: &Watch,
        pages: u32,
    ) -> Round {
        self.fill(rt, pages);
        let round = self.shared.round(rt, &mut self.seats, copiers, room, watch);
        watch.assert_let_go(rt);
        assert!(rt; round.count == u64::from(pages) && round.by_copier.len() == copiers);
        round
    }

    /// The first copier waits with each page until 100 pages have ended,
    /// so that the copiers don't get equal shares.
    pub fn notes_each_page<R: Runtime>(&mut self, rt: &R) {
        let watch = Watch::by(Plan::HoldsFirstCopier(Until::pages(100, Point::Ended)));
        let round = self.watched(rt, 4, 8, &watch, 512);
        assert_lists_what_it_took(rt, &round, &watch);
        assert!(rt; watch.told.of(Point::Isolated) == 512 && watch.told.of(Point::Ended) == 512);
    }

    /// The serial that the record at this place from the end of the journal says was moved.
    fn moved_at<R: Wait>(&self, rt: &R, place: u64) -> Option<Serial> {
        let room = self.shared.zone.lock(rt);
        moved_in(room.zone().journal().kept(), place as usize)
    }

    /// The list has one serial, of the page whose end is at this place from the end of the journal.
    fn assert_has_one<R: Wait + Abort>(&self, rt: &R, list: &[Serial], place: u64) {
        let serial = self.moved_at(rt, place);
        assert!(rt; serial.is_some() && list.first().copied() == serial);
        assert!(rt; list.len() == 1);
    }

    /// A copier that is kept back has the page that ended in its turn alone, and so the last to come has all others.
    pub fn keeps_copiers_back<R: Runtime>(&mut self, rt: &R, copiers: usize) {
        let held = copiers as u64;
        let watch = Watch::by(Plan::HoldsAllButTheLast(held, u64::from(PAGES)));
        let round = self.watched(rt, copiers, 1, &watch, PAGES);
        for (list, who) in round.by_copier.iter().zip(1..5usize) {
            let turn = watch.turns.number(who);
            if turn < held {
                self.assert_has_one(rt, list, held - turn);
            }
        }
    }
}

#[test]
fn each_list_has_what_its_copier_took(rt: HostRuntime) {
    tries(&rt, 2, Some(65536), Trial::NotesEachPage);
}

#[test]
fn a_copier_that_is_kept_back_has_one_page(rt: HostRuntime) {
    for copiers in 1..5usize {
        tries(&rt, 1, Some(999), Trial::KeepsCopiersBack(copiers));
    }
}
