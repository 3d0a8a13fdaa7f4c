//! The pages of a test, and what is in them.

ghost use Rattle.std.specs.Prelude.{◌≡◌, ◌<◌, ◌≤◌};

use super::Runtime;
use row_core::Ground;
use std::process::Abort;
use worker_threads::{MemoryIdentity, Open, Room};
use zone_core::{
    Address, BareZone, ClientNo, Look, SpaceNo, VPage, WordOf, ZoneAnswer, ZoneCallOf, ZoneNo,
    ZoneSize,
};

/// How many pages a zone has before some of them are taken out.
pub const PAGES: u32 = 1600;

pub fn client(rt: &impl Abort, who: u32) -> ClientNo {
    ClientNo::new(who).expect(rt, "a client")
}

pub fn address(rt: &impl Abort, page: u32) -> Address {
    let space = SpaceNo::new(0).expect(rt, "a space");
    let vpage = VPage::new(page).expect(rt, "a virtual page");
    Address { space, vpage }
}

pub fn first_word<const W: usize>(rt: &impl Abort) -> WordOf<W>
    requires { W ≤ 65536 }
{
    WordOf::new(0).expect(rt, "a word")
}

/// A zone of four pageblocks in memory of its caller.
pub fn opened<const W: usize, R: Runtime>(rt: &R, places: Option<u32>) -> BareZone<W>
    requires { W ≤ 65536 }
{
    let words = 2048 * W;
    let mut ground = Ground::open(rt.alloc(), words).expect(rt, "memory");
    let memory = ground.lend(0, words);
    let number = ZoneNo::new(1).expect(rt, "a zone");
    let size = ZoneSize {
        blocks: 4,
        spaces: 1,
        vpages: 4096,
    };
    let zone = BareZone::open_in(rt.alloc(), number, size, places, memory, false);
    zone.ok().expect(rt, "a zone")
}

/// What all words of a page are.
fn stored(page: u32) -> u64 {
    u64::from(page).wrapping_mul(0x9e37_79b9_7f4a_7c15)
}

/// Whether a page stays after so many takings: seven of ten do each time.
pub fn stays(page: u32, times: u32) -> bool {
    (1..=times).all(|time| (page.wrapping_mul(time.wrapping_mul(2_654_435_761)) >> 16) % 10 < 7)
}

/// Takes out the pages that stayed so far and don't stay so many times.
pub fn thin<K: MemoryIdentity>(rt: &impl Abort, room: &mut Room<Open<K>, 8>, times: u32) {
    for page in 0..PAGES {
        if stays(page, times.wrapping_sub(1)) && !stays(page, times) {
            let address = address(rt, page);
            let made = room.make(client(rt, 0), ZoneCallOf::Unmap { address });
            assert!(rt; made == Ok(ZoneAnswer::Done));
        }
    }
}

/// A zone with pages of which the pattern takes some out.
pub fn thinned<const W: usize, R: Runtime>(rt: &R, places: Option<u32>) -> BareZone<W>
    requires { W ≤ 65536 }
{
    thinned_often(rt, places, 1)
}

/// A zone with the pages that stay so many times.
pub fn thinned_often<const W: usize, R: Runtime>(
    rt: &R,
    places: Option<u32>,
    times: u32,
) -> BareZone<W>
    requires { W ≤ 65536 }
{
    let mut zone = opened(rt, places);
    for page in 0..PAGES {
        zone.map(client(rt, 0), address(rt, page), false)
            .expect(rt, "a frame");
        if places.is_none() {
            zone.write(
                client(rt, 0),
                address(rt, page),
                first_word(rt),
                &[stored(page); W],
            )
            .expect(rt, "a page");
        }
    }
    for page in 0..PAGES {
        if !stays(page, times) {
            zone.unmap(client(rt, 0), address(rt, page))
                .expect(rt, "a page");
        }
    }
    zone
}

/// The frame of a page, or a number that no frame has where it is moving, or there is none.
pub fn frame_of<const W: usize>(rt: &impl Abort, zone: &BareZone<W>, page: u32) -> u32 {
    let Ok(look) = zone.look(address(rt, page)) else {
        return u32::MAX;
    };
    match look {
        Look::At { frame, .. } => frame.get(),
        Look::Moving { .. } => u32::MAX,
    }
}

/// The words of each page that stays so many times are what was stored, and no other page is there.
pub fn assert_kept<const W: usize>(rt: &impl Abort, zone: &mut BareZone<W>, times: u32)
    requires { W ≤ 65536 }
{
    for page in 0..PAGES {
        let mut words = [0; W];
        let read = zone.read(client(rt, 0), address(rt, page), first_word(rt), &mut words);
        assert!(rt; read.is_ok() == stays(page, times), "{page}");
        assert!(rt;
            read.is_err() || words == [stored(page); W],
            "the words of page {page}"
        );
    }
}

/// The frames with a page.
pub fn used_frames<const W: usize>(rt: &impl Abort, zone: &BareZone<W>) -> [bool; 2048] {
    let mut used = [false; 2048];
    for page in 0..PAGES {
        let frame = frame_of(rt, zone, page);
        if frame < 2048 {
            used[frame as usize] = true;
        }
    }
    used
}

/// The memory of a zone comes back to whoever gave it.
pub fn assert_ends<const W: usize>(rt: &impl Abort, zone: BareZone<W>) {
    if !zone.lends_none() {
        panic!(rt; "words are lent");
    }
    assert!(rt; zone.end().is_some(), "the memory comes back");
}
