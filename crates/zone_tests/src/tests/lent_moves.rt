//! A page is moved whose words are lent: one row is copied into the other without the zone, and both come back.

ghost use Rattle.std.specs.Prelude.{◌≡◌};
ghost use Rattle.state_core.specs.LentMoves.{IsLentMove};

use super::lending::{WORDS, memory, open_in};
use super::{address, client, word};
use frame_core::{Address, ClientNo, IsolatedOf, PageNo, PageOf, ZoneNo};
use std::process::Abort;
use zone_core::{BareZone, Ended, LentMove, Next, Stranger, ZoneError};

/// A value of this type may go to another thread.
fn crosses<T: Send>(_value: &T) {}

/// The next page of a round that begins is isolated, and its words are lent.
fn lend_next(rt: &impl Abort, zone: &mut BareZone<8>) -> LentMove
    ensures { IsLentMove zone.new result }
{
    zone.begin_round();
    match zone.lend_move().expect(rt, "an answer") {
        Next::Page(lent) => lent,
        Next::Met => panic!(rt; "no page"),
    }
}

/// The page of the zone's first move, as a move by value has it.
fn by_value(rt: &impl Abort) -> IsolatedOf<8> {
    let zone = ZoneNo::new(3).expect(rt, "a zone");
    let number = PageNo::new(0).expect(rt, "a page");
    IsolatedOf::new(0, PageOf::new(zone, number))
}

/// While its words are lent, the page is moving, and its move isn't ended by value.
fn assert_moving(rt: &impl Abort, zone: &mut BareZone<8>, client: ClientNo, address: &Address)
    ensures { zone.new ≡ zone.old }
{
    assert!(rt; !zone.lends_none());
    assert!(rt; zone.load(client, *address, word(rt, 3)).err() == Some(ZoneError::Moving));
    assert!(rt;
        zone.put_back(by_value(rt)).is_err(),
        "a lent move is ended by value"
    );
}

/// Under another serial the move is handed back, with its rows, and the zone is as before.
fn assert_own(rt: &impl Abort, zone: &mut BareZone<8>, lent: LentMove) -> LentMove
    requires { IsLentMove zone.old lent }
    ensures zone { zone.new ≡ zone.old }
    ensures lent { result ≡ lent }
{
    let (way, from, to) = lent.into_parts();
    assert!(rt; way.serial == 0);
    let mut later = way;
    later.serial = 1;
    let Err(Stranger(back)) = zone.put_back_lent(LentMove::of(later, from, to)) else {
        panic!(rt; "it is taken under another serial");
    };
    let (_, from, to) = back.into_parts();
    LentMove::of(way, from, to)
}

/// A page with one word that isn't 0.
fn map_one(rt: &impl Abort, zone: &mut BareZone<8>, client: ClientNo, address: &Address) {
    assert!(rt; zone.map(client, *address, false).is_ok());
    assert!(rt; zone.store(client, *address, word(rt, 3), 5).is_ok());
}

/// The page has its words, and none are lent.
fn assert_back(rt: &impl Abort, zone: &mut BareZone<8>, client: ClientNo, address: &Address) {
    assert!(rt; zone.lends_none());
    assert!(rt; zone.load(client, *address, word(rt, 3)) == Ok(5));
    assert!(rt; zone.load(client, *address, word(rt, 2)) == Ok(0));
}

#[tactic(auto, using(state_core::proofs::LentMoves::lent_copied))]
fn move_one(rt: &impl Abort, zone: &mut BareZone<8>, client: ClientNo, address: &Address) {
    map_one(rt, zone, client, address);
    let lent = lend_next(rt, zone);
    crosses(&lent);
    assert_moving(rt, zone, client, address);
    let copied = lent.copy();
    crosses(&copied);
    match zone.commit_lent(copied) {
        Ok(ended) => assert!(rt; ended == Ended::Moved),
        Err(_) => panic!(rt; "a stranger"),
    }
    assert_back(rt, zone, client, address);
}

fn put_one_back(rt: &impl Abort, zone: &mut BareZone<8>, client: ClientNo, address: &Address) {
    map_one(rt, zone, client, address);
    let lent = lend_next(rt, zone);
    assert_moving(rt, zone, client, address);
    let lent = assert_own(rt, zone, lent);
    assert!(rt; zone.put_back_lent(lent).is_ok());
    assert_back(rt, zone, client, address);
}

#[test]
fn a_page_is_moved_by_its_rows(rt: HostRuntime) {
    match open_in(&rt, 1, memory(&rt, WORDS)) {
        Ok(mut zone) => move_one(&rt, &mut zone, client(&rt), &address(&rt, (0, 9))),
        Err(_) => panic!(&rt; "no zone"),
    }
}

#[test]
fn a_page_is_put_back_by_its_rows(rt: HostRuntime) {
    match open_in(&rt, 1, memory(&rt, WORDS)) {
        Ok(mut zone) => put_one_back(&rt, &mut zone, client(&rt), &address(&rt, (0, 9))),
        Err(_) => panic!(&rt; "no zone"),
    }
}
