//! Laws over zones that are the same but for the order of moves, as two rounds over one zone leave them: `calls_agree` is of each call
//! that is a value (`ZoneCall`), and the other functions are of the calls that are not.

ghost use Rattle.std.specs.Prelude.{◌≡◌, ℕ, List};
ghost use Rattle.frame_core.specs.declared.place.Address.{Address};
ghost use Rattle.frame_core.specs.declared.record.Cause.{Cause};
ghost use Rattle.zone_core.specs.Alone.{IsAtRest};
ghost use Rattle.zone_core.specs.ByHand.{by_hand};
ghost use Rattle.zone_core.specs.Outcome.{IsSame};
ghost use Rattle.zone_core.specs.Fingers.{IsSameInRound};
ghost use Rattle.state_core.specs.Calls.{refusal_of, answer_of, after};
ghost use Rattle.state_core.specs.Contents.{contents_refusal, contents_from, contents_written};
ghost use Rattle.state_core.specs.Ending.{ended_as, committed, put_back_to_source};
ghost use Rattle.state_core.specs.Isolating.{isolate_refusal, next_state};
ghost use Rattle.state_core.specs.Looking.{look_of, info_of};
ghost use Rattle.state_core.specs.Marking.{marked_of};
ghost use Rattle.state_core.specs.Pairs.{next_pair};
ghost use Rattle.state_core.specs.Rounds.{round_begun};
ghost use Rattle.state_core.specs.ZoneState.{ZoneState};
ghost use Rattle.state_core.specs.declared.call.ZoneCall.{ZoneCall};

/// Any call that is a value: two such zones refuse it alike, answer it alike, and are such zones after it.
pub fn calls_agree()
    ensures refused { (z w : ZoneState) → IsSame z w → (W : ℕ) (call : ZoneCall W) → refusal_of call z ≡ refusal_of call w }
    ensures answer { (z w : ZoneState) → IsSame z w → (W : ℕ) (call : ZoneCall W) → answer_of call z ≡ answer_of call w }
    ensures after { (z w : ZoneState) → IsSame z w → (W : ℕ) (call : ZoneCall W) (client : ℕ) → IsSame (after call client z) (after call client w) }
{}

/// A read and a write of the words of a block that is handed out.
pub fn contents_agree()
    ensures refused { (z w : ZoneState) → IsSame z w → (first order from count : ℕ) → contents_refusal z first order from count ≡ contents_refusal w first order from count }
    ensures words { (z w : ZoneState) → IsSame z w → (first from count : ℕ) → contents_from z first from count ≡ contents_from w first from count }
    ensures written { (z w : ZoneState) → IsSame z w → (first from : ℕ) (values : List ℕ) → IsSame (contents_written z first from values) (contents_written w first from values) }
{}

/// What is told of a page, of a mark, and the counts.
pub fn looks_agree()
    ensures look { (z w : ZoneState) → IsSame z w → (address : Address) → look_of z address ≡ look_of w address }
    ensures mark { (z w : ZoneState) → IsSame z w → (block : ℕ) → marked_of z block ≡ marked_of w block }
    ensures info { (z w : ZoneState) → IsSame z w → info_of z ≡ info_of w }
{}

/// A round by hand.
pub fn rounds_agree()
    ensures { (z w : ZoneState) → IsAtRest z → IsAtRest w → IsSame z w → IsSame (by_hand z) (by_hand w) }
{}

/// What a round by hand calls: it begins, isolates pages, and ends their moves.
pub fn moves_agree()
    ensures begun { (z w : ZoneState) → IsSame z w → IsSameInRound (round_begun z) (round_begun w) }
    ensures refused { (z w : ZoneState) → IsSame z w → isolate_refusal z ≡ isolate_refusal w }
    ensures pair { (z w : ZoneState) → IsSameInRound z w → next_pair z ≡ next_pair w }
    ensures isolated { (z w : ZoneState) → IsSameInRound z w → IsSameInRound (next_state z (next_pair z)) (next_state w (next_pair w)) }
    ensures ended { (z w : ZoneState) → IsSame z w → (page : ℕ) → ended_as z page ≡ ended_as w page }
    ensures committed { (z w : ZoneState) → IsSameInRound z w → (serial page : ℕ) → IsSameInRound (committed z serial page) (committed w serial page) }
    ensures put_back { (z w : ZoneState) → IsSameInRound z w → (serial page : ℕ) (cause : Cause) → IsSameInRound (put_back_to_source z serial page cause) (put_back_to_source w serial page cause) }
{}
