//! Laws over a round and what it comes to.

ghost use Rattle.std.specs.Prelude.{◌≡◌, ℕ, true, Some, None, []};
ghost use Rattle.std.specs.FinMap as map;
ghost use Rattle.frame_core.specs.History.{pins};
ghost use Rattle.frame_core.specs.Moves.{isolated, out, put_back};
ghost use Rattle.frame_core.specs.declared.record.Cause.{Cause};
ghost use Rattle.state_core.specs.Ending.{moved_to_target, put_back_to_source, HasCause};
ghost use Rattle.state_core.specs.Isolating.{isolate_refusal};
ghost use Rattle.state_core.specs.Valid.{IsValidZone};
ghost use Rattle.state_core.specs.Packed.{IsPacked};
ghost use Rattle.state_core.specs.Pairs.{is_calm};
ghost use Rattle.state_core.specs.Rounds.{round_begun};
ghost use Rattle.state_core.specs.ZoneState.{ZoneState};
ghost use Rattle.state_core.specs.declared.placement.Placement.TheVariants.{Moving};
ghost use Rattle.zone_core.specs.Alone.{ComesTo, IsAtRest};
ghost use Rattle.zone_core.specs.ByHand.{scan_step, all_isolated, by_hand};
ghost use Rattle.zone_core.specs.Outcome.{IsSame};

/// As a round begins it comes to what the round by hand comes to, and each of its steps leaves it so: a page isolated, moved or put back.
pub fn each_step_keeps()
    ensures begun { (start : ZoneState) → IsAtRest start → ComesTo start (round_begun start) }
    ensures scan { (start z : ZoneState) → IsValidZone z → ComesTo start z → ComesTo start (scan_step z) }
    ensures moved { (start z : ZoneState) (page serial source target : ℕ) → IsValidZone z → map.get z.placement page ≡ Some (Moving serial source target) → ComesTo start z → ComesTo start (moved_to_target z serial page) }
    ensures put_back { (start z : ZoneState) (page serial source target : ℕ) (cause : Cause) → IsValidZone z → HasCause cause (pins z.records page)
        → map.get z.placement page ≡ Some (Moving serial source target) → ComesTo start z → ComesTo start (put_back_to_source z serial page cause) }
{}

/// Where as many pages were isolated as by hand, none is moving and none was put back, the zone is the one after the round by hand.
pub fn comes_to_by_hand()
    ensures { (start z : ZoneState) → IsAtRest start → IsValidZone z → ComesTo start z
        → isolated z.records ≡ isolated (all_isolated start).records → out z.records ≡ [] → put_back z.records ≡ put_back start.records → IsSame (by_hand start) z }
{}

/// A calm round by hand whose scanners met leaves the zone packed, and so does each round that comes to the same.
pub fn packs_a_calm_zone()
    ensures { (start z : ZoneState) → IsValidZone start → is_calm start ≡ true → isolate_refusal (all_isolated start) ≡ None → IsSame (by_hand start) z → IsPacked z }
{}
