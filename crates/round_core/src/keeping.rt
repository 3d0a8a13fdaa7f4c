ghost use Rattle.std.specs.Prelude.{◌≡◌, ℕ, List, ◌∷◌, Option, Some, None, true, refl, ⊤};
ghost use Rattle.std.specs.FinMap as map;
ghost use Rattle.frame_core.specs.History.{pins};
ghost use Rattle.frame_core.specs.Moves.{isolated};
ghost use Rattle.frame_core.specs.declared.record.Cause.{Cause};
ghost use Rattle.frame_core.specs.declared.record.Record.{Record};
ghost use Rattle.hand_core.specs.Told.{Pair, Told, pair_of, written_if};
ghost use Rattle.zone_core.specs.ByHand.{scan_pair, scan_step};
ghost use Rattle.round_core.specs.Calls.{IsCall, is_of_round};
ghost use Rattle.round_core.specs.Rounds.{stop_for};
ghost use Rattle.round_core.specs.Scanning.{HasBegun};
ghost use Rattle.round_core.specs.declared.round.Stop.{Stop as Stopped};
ghost use Rattle.state_core.specs.Ending.{committed, put_back_to_source, HasCause};
ghost use Rattle.state_core.specs.Isolating.{isolate_refusal};
ghost use Rattle.state_core.specs.Valid.{IsValidZone};
ghost use Rattle.state_core.specs.Rounds.{round_begun};
ghost use Rattle.state_core.specs.ZoneState.{ZoneState};
ghost use Rattle.state_core.specs.declared.placement.Placement.TheVariants.{Moving};

use crate::identity::ZoneIdentity;
use std::marker::{Brand, PhantomData};

/// What the lock of a zone keeps, beside that the zone is valid: a fact about the zone that each step of a round leaves true, and each
/// call of a client that may make calls. Contracts alone know it, and whoever shares a zone picks it. `Open` keeps nothing, as the
/// members' defaults say; `compact_alone` keeps what its round comes to, and no client may make calls.
pub trait Keeping: ZoneIdentity {
    /// What is so whenever the lock is free.
    ghost keeps: { ZoneState → Type 0 } = { λ z. ⊤ };

    /// What is so while the scanner has the lock, once its round has begun.
    ghost keeps_scanning: { ZoneState → Type 0 } = { λ z. ⊤ };

    /// Where so many pages were isolated a round may begin.
    ghost begins_at: { ℕ → Type 0 } = { λ n. ⊤ };

    /// Where so many pages are isolated the scanner stops, and why.
    ghost stops_at: { ℕ → Stopped → Type 0 } = { λ n stop. ⊤ };

    /// No moving page has a pin.
    ghost unpinned: { Type 0 } = { ⊥ };

    /// The client with this number may make calls, and its slip is of this pair, if it has one.
    ghost allows: { ℕ → Option Pair → Type 0 } = { λ client pair. None ≡ pair };

    /// Where receipts are kept, the pair of the stub under the lock, and the receipts that clients have of this journal.
    ghost told: { List Record → Option Told } = { λ records. None };

    // A round begins, its scanner takes the lock again, and lets it go.
    ghost begins: { (z : ZoneState) → IsValidZone z → begins_at (isolated z.records) → keeps z → keeps_scanning (round_begun z) };

    ghost goes_on: { (z : ZoneState) → IsValidZone z → HasBegun begins_at (isolated z.records) → keeps z → keeps_scanning z };

    ghost lets_go: { (z : ZoneState) → keeps_scanning z → keeps z };

    // It isolates a page, and it stops.
    ghost scans: { (z : ZoneState) → IsValidZone z → keeps_scanning z → keeps_scanning (scan_step z) };

    ghost stops: { (z : ZoneState) → IsValidZone z → keeps_scanning z → scan_pair z ≡ None → stops_at (isolated z.records) (stop_for (isolate_refusal z)) };

    // The move of a page ends: it is committed, or put back.
    ghost commits: { (z : ZoneState) (page serial source target : ℕ) → IsValidZone z → map.get z.placement page ≡ Some (Moving serial source target) → keeps z → keeps (committed z serial page) };

    ghost puts_back: { (z : ZoneState) (page serial source target : ℕ) (cause : Cause) → IsValidZone z → HasCause cause (pins z.records page) → map.get z.placement page ≡ Some (Moving serial source target) → keeps z → keeps (put_back_to_source z serial page cause) };

    ghost pins_none: { (z : ZoneState) (page serial source target : ℕ) → unpinned → IsValidZone z → keeps z → map.get z.placement page ≡ Some (Moving serial source target) → pins z.records page ≡ 0 };

    // A client makes a call that the zone accepts; one that the zone refuses leaves it as it was.
    ghost calls: { (z z_new : ZoneState) (client : ℕ) (pair : Option Pair) → allows client pair → IsValidZone z → IsCall client z z_new → keeps z → keeps z_new };

    // The record of such a call is one receipt more; a step of a round is none.
    ghost tells: { (z z_new : ZoneState) (client : ℕ) (pair : Option Pair) → allows client pair → (call : IsCall client z z_new) → keeps z → told z_new.records ≡ written_if call.entry (told z.records) };

    ghost tells_none: { (entry : Record) (records : List Record) → is_of_round entry ≡ true → told (entry ∷ records) ≡ told records };

    ghost pairs: { (client : ℕ) (pair : Option Pair) (records : List Record) → allows client pair → pair_of (told records) ≡ pair };
}

// Nothing: a call that passes `Brand` picks its own.
impl Keeping for Brand {
    ghost begins = { λ z law at keeps. tt };

    ghost goes_on = { λ z law begun keeps. tt };

    ghost lets_go = { λ z keeps. tt };

    ghost scans = { λ z law keeps. tt };

    ghost stops = { λ z law keeps none. tt };

    ghost commits = { λ z page serial source target law at keeps. tt };

    ghost puts_back = { λ z page serial source target cause law has at keeps. tt };

    ghost pins_none = { λ z page serial source target never law keeps at. absurd never };

    ghost calls = { λ z z_new client pair may law call keeps. tt };

    ghost tells = { λ z z_new client pair may call keeps. refl };

    ghost tells_none = { λ entry records of_round. refl };

    ghost pairs = { λ client pair records may. may };
}

/// Of a zone that anyone may use its lock keeps nothing but that it is valid, and each client that has no slip may make calls.
pub struct Open<K> {
    of: PhantomData<K>,
}

impl<K: ZoneIdentity> ZoneIdentity for Open<K> {
    ghost number = { K.number };

    ghost blocks = { K.blocks };
}

impl<K: ZoneIdentity> Keeping for Open<K> {
    ghost begins = { λ z law at keeps. tt };

    ghost goes_on = { λ z law begun keeps. tt };

    ghost lets_go = { λ z keeps. tt };

    ghost scans = { λ z law keeps. tt };

    ghost stops = { λ z law keeps none. tt };

    ghost commits = { λ z page serial source target law at keeps. tt };

    ghost puts_back = { λ z page serial source target cause law has at keeps. tt };

    ghost pins_none = { λ z page serial source target never law keeps at. absurd never };

    ghost calls = { λ z z_new client pair may law call keeps. tt };

    ghost tells = { λ z z_new client pair may call keeps. refl };

    ghost tells_none = { λ entry records of_round. refl };

    ghost pairs = { λ client pair records may. may };
}
