//! What C calls to have blocks of an order ready before they are asked for. C keeps the first frames of the runs that are claimed for
//! them, and passes them to each call.

ghost use Rattle.std.specs.Prelude.{◌≡◌, ◌/◌, ◌^◌, ◌≤◌, ◌∷◌, [], length, IsTrue, None, Some, IfOk, OnErr};
ghost use Rattle.std.specs.Result.{result_err};
ghost use Rattle.compactd_c.specs.Answers.{answer_of};
ghost use Rattle.compactd_c.specs.Ranges.{is_order, ranged};
ghost use Rattle.compactd_c.specs.Keepers.{are_frames, cheapest_refusal, has_more, is_keeper, keeper_of, moved_by, IsStep};
ghost use Rattle.fewest_core.specs.Claims.{claim_refusal};
ghost use Rattle.fewest_core.specs.FewestMoves.{cost, least};
ghost use Rattle.fewest_core.specs.Reservation.{ArePicked};
ghost use Rattle.keeper_core.specs.Keeping.{keep_refusal, take_refusal, IsKept, IsTaken};
ghost use Rattle.state_core.specs.ZoneState.{ZoneState};

use crate::calls::number;
use crate::pool::Pool;
use crate::reserving::write_numbers;
use crate::zone::Zone;
use frame_core::{FixedVec, FrameNo, Order};
use keeper_core::{Keeper, Step, Taken};
use state_core::ZoneError;
use std::alloc::{AllocError, Global};

/// Gets the open run of an order with the fewest pages, the lowest of equals: its first frame, and how many pages it has.
///
/// Refused as RANGE where the order is out of its range, as NO_BLOCK where no run is open, or as CLOSED.
#[unsafe(no_mangle)]
pub extern "C" fn compactd_cheapest_run(
    pool: &mut Pool,
    order: u32,
    first: &mut u32,
    pages: &mut u32,
) -> u32
    ensures answer { result ≡ answer_of pool.old.zone (λ z. ranged (is_order order) (cheapest_refusal z order)) }
    ensures zone { pool.new.zone ≡ pool.old.zone }
    ensures picked { (z : ZoneState) → pool.old.zone ≡ Some z → result ≡ 0 → ArePicked z order (first.new ∷ []) }
    ensures pages { (z : ZoneState) → pool.old.zone ≡ Some z → result ≡ 0 → pages.new ≡ cost z (2 ^ order) (first.new / 2 ^ order) }
    // A reservation of one block moves as many.
    ensures least { (z : ZoneState) → pool.old.zone ≡ Some z → result ≡ 0 → pages.new ≡ least 1 z (2 ^ order) }
    ensures claim { (z : ZoneState) → pool.old.zone ≡ Some z → result ≡ 0 → claim_refusal z first.new order ≡ None }
    ensures kept { ¬ (result ≡ 0) → (first.new ≡ first.old) × (pages.new ≡ pages.old) }
{
    let zone = open_zone!(pool);
    match zone.cheapest_run(order) {
        Ok(run) => {
            *first = run.first.get();
            *pages = run.pages;
            0
        }
        Err(error) => number(error),
    }
}

/// A step of a keeper, which has as many blocks of an order ready as `firsts` has places. The runs that it claimed begin at the first
/// `count` of them, the first claimed first. It goes on with the first of these runs that isn't finished, and moves at most `most` pages
/// out of it. Where all are finished and there are places for more, it claims the cheapest open run. Gets the runs that are claimed then, how
/// many pages were moved, and whether the step did anything: else there is no more to do now.
///
/// Refused as RANGE where the order or a first frame is out of its range or there are more runs than places, and as MEMORY where there isn't
/// enough for a list of the runs. Refused as JOURNAL_FULL, as `compactd_empty_some` is, or as CLOSED.
#[unsafe(no_mangle)]
pub extern "C" fn compactd_keep(
    alloc: Global,
    pool: &mut Pool,
    order: u32,
    most: u32,
    firsts: &mut [u32],
    count: &mut usize,
    moved: &mut u32,
    more: &mut bool,
) -> u32
    ensures answer { ¬ (result ≡ 14) → result ≡ answer_of pool.old.zone (λ z. ranged (is_keeper order firsts.old count.old) (keep_refusal (keeper_of order firsts.old count.old) z most)) }
    ensures memory { result ≡ 14 → ¬ (pool.old.zone ≡ None) × IsTrue (is_keeper order firsts.old count.old) }
    ensures step { (old new : ZoneState) → pool.old.zone ≡ Some old → pool.new.zone ≡ Some new → result ≡ 0 → IsStep (keeper_of order firsts.old count.old) old most (keeper_of order firsts.new count.new) new moved.new more.new }
    ensures open { result ≡ 0 → ¬ (pool.new.zone ≡ None) }
    ensures count { result ≡ 0 → count.new ≤ length firsts.new }
    ensures places { length firsts.new ≡ length firsts.old }
    ensures kept { ¬ (result ≡ 0) → (pool.new.zone ≡ pool.old.zone) × (firsts.new ≡ firsts.old) × (count.new ≡ count.old) × (moved.new ≡ moved.old) × (more.new ≡ more.old) }
{
    let zone = open_zone!(pool);
    match keep(alloc, zone, order, most, firsts, count) {
        Ok(step) => {
            *moved = moved_by(&step);
            *more = has_more(&step);
            0
        }
        Err(error) => number(error),
    }
}

/// Hands out the first run of a keeper that is ready, and gets its first frame: no page is moved for it, and it is no run of the keeper any
/// more. Where none is ready, a block is handed out as by `compactd_reserve`, and `moved` gets how many pages were moved for it.
///
/// Refused as RANGE or MEMORY, as `compactd_keep` is. Refused as JOURNAL_FULL; where no run is ready, as NO_BLOCK or JOURNAL_FULL, as
/// `compactd_reserve` is. Refused as CLOSED.
#[unsafe(no_mangle)]
pub extern "C" fn compactd_take_kept(
    alloc: Global,
    pool: &mut Pool,
    order: u32,
    firsts: &mut [u32],
    count: &mut usize,
    first: &mut u32,
    moved: &mut u32,
) -> u32
    ensures answer { ¬ (result ≡ 14) → result ≡ answer_of pool.old.zone (λ z. ranged (is_keeper order firsts.old count.old) (take_refusal (keeper_of order firsts.old count.old) z)) }
    ensures memory { result ≡ 14 → ¬ (pool.old.zone ≡ None) × IsTrue (is_keeper order firsts.old count.old) }
    ensures taken { (old new : ZoneState) → pool.old.zone ≡ Some old → pool.new.zone ≡ Some new → result ≡ 0 → IsTaken (keeper_of order firsts.old count.old) old (record { first = first.new; pages = moved.new }) (keeper_of order firsts.new count.new) new }
    ensures open { result ≡ 0 → ¬ (pool.new.zone ≡ None) }
    ensures count { result ≡ 0 → count.new ≤ length firsts.new }
    ensures places { length firsts.new ≡ length firsts.old }
    ensures kept { ¬ (result ≡ 0) → (pool.new.zone ≡ pool.old.zone) × (firsts.new ≡ firsts.old) × (count.new ≡ count.old) × (first.new ≡ first.old) × (moved.new ≡ moved.old) }
{
    let zone = open_zone!(pool);
    match take_kept(alloc, zone, order, firsts, count) {
        Ok(taken) => {
            *first = taken.first.get();
            *moved = taken.pages;
            0
        }
        Err(error) => number(error),
    }
}

/// The same step on a zone. The keeper is there for this call alone.
fn keep(
    alloc: Global,
    zone: &mut Zone,
    order: u32,
    most: u32,
    firsts: &mut [u32],
    count: &mut usize,
) -> Result<Step, ZoneError>
    ensures refused { ¬ (result ≡ Err ZoneError.Memory) → result_err result ≡ ranged (is_keeper order firsts.old count.old) (keep_refusal (keeper_of order firsts.old count.old) zone.old most) }
    ensures memory { result ≡ Err ZoneError.Memory → IsTrue (is_keeper order firsts.old count.old) }
    ensures err { OnErr result ((zone.new ≡ zone.old) × (firsts.new ≡ firsts.old) × (count.new ≡ count.old)) }
    ensures ok { IfOk result (λ step. IsKept (keeper_of order firsts.old count.old) zone.old most step (keeper_of order firsts.new count.new) zone.new) }
    ensures count { IfOk result (λ step. count.new ≤ length firsts.new) }
    ensures places { length firsts.new ≡ length firsts.old }
{
    let mut keeper = keeper_of(alloc, order, firsts, *count)?;
    let step = zone.keep(&mut keeper, most)?;
    write_claims(&keeper, firsts, count);
    Ok(step)
}

/// The same of a zone.
fn take_kept(
    alloc: Global,
    zone: &mut Zone,
    order: u32,
    firsts: &mut [u32],
    count: &mut usize,
) -> Result<Taken, ZoneError>
    ensures refused { ¬ (result ≡ Err ZoneError.Memory) → result_err result ≡ ranged (is_keeper order firsts.old count.old) (take_refusal (keeper_of order firsts.old count.old) zone.old) }
    ensures memory { result ≡ Err ZoneError.Memory → IsTrue (is_keeper order firsts.old count.old) }
    ensures err { OnErr result ((zone.new ≡ zone.old) × (firsts.new ≡ firsts.old) × (count.new ≡ count.old)) }
    ensures ok { IfOk result (λ taken. IsTaken (keeper_of order firsts.old count.old) zone.old taken (keeper_of order firsts.new count.new) zone.new) }
    ensures count { IfOk result (λ taken. count.new ≤ length firsts.new) }
    ensures places { length firsts.new ≡ length firsts.old }
{
    let mut keeper = keeper_of(alloc, order, firsts, *count)?;
    let taken = zone.take_kept(&mut keeper)?;
    write_claims(&keeper, firsts, count);
    Ok(taken)
}

/// A keeper that claimed the first `count` of these runs.
fn keeper_of(alloc: Global, order: u32, firsts: &[u32], count: usize) -> Result<Keeper, ZoneError>
    ensures refused { ¬ (result ≡ Err ZoneError.Memory) → result_err result ≡ ranged (is_keeper order firsts.now count) None }
    ensures memory { result ≡ Err ZoneError.Memory → IsTrue (is_keeper order firsts.now count) }
    ensures keeper { IfOk result (λ keeper. keeper ≡ keeper_of order firsts.now count) }
{
    let order = Order::new(order).ok_or(ZoneError::Range)?;
    let numbers = firsts.get(..count).ok_or(ZoneError::Range)?;
    if !are_frames(numbers) {
        return Err(ZoneError::Range);
    }
    let claims = frames_of(alloc, numbers)?;
    Ok(Keeper::with_claims(alloc, order, firsts.len(), &claims)?)
}

/// Whether frames may have these numbers.
fn are_frames(numbers: &[u32]) -> bool
    ensures { result ≡ are_frames numbers.now }
{
    numbers
        .iter()
        .all(|number| FrameNo::in_any_zone(*number).is_some())
}

/// The frames with these numbers.
fn frames_of(alloc: Global, numbers: &[u32]) -> Result<FixedVec<FrameNo>, AllocError>
    requires { IsTrue (are_frames numbers.now) }
    ensures { IfOk result (λ frames. frames.items ≡ numbers.now) }
{
    let mut frames = FixedVec::with_room(alloc, numbers.len())?;
    for number in numbers.iter() {
        let Some(frame) = FrameNo::in_any_zone(*number) else {
            unreachable!();
        };
        frames.push(frame);
    }
    Ok(frames)
}

/// Writes the first frames of the runs that a keeper claimed, and how many they are.
fn write_claims(keeper: &Keeper, firsts: &mut [u32], count: &mut usize)
    requires ready { keeper.now.ready ≡ length firsts.old }
    ensures keeper { keeper_of keeper.now.order firsts.new count.new ≡ keeper.now }
    ensures count { count.new ≤ length firsts.new }
    ensures places { length firsts.new ≡ length firsts.old }
{
    let claims = keeper.claims();
    write_numbers(claims, &mut firsts[..claims.len()]);
    *count = claims.len();
}

/// How many pages a step moved.
fn moved_by(step: &Step) -> u32
    ensures { result ≡ moved_by step.now }
{
    match *step {
        Step::Emptied { pages, .. } => pages,
        Step::Claimed { .. } | Step::Rested => 0,
    }
}

/// Whether a step did anything.
fn has_more(step: &Step) -> bool
    ensures { result ≡ has_more step.now }
{
    !matches!(*step, Step::Rested)
}
