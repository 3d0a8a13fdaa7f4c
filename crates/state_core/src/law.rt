//! What holds of each call of a zone, whatever call it is.

ghost use Rattle.std.specs.Prelude.{◌≡◌, ℕ, ◌+◌, ◌∷◌, length, None, IsTrue};
ghost use Rattle.state_core.specs.Calls.{refusal_of, answer_of, after, answers, record_of, IsInRange};
ghost use Rattle.state_core.specs.Valid.{IsValidZone};
ghost use Rattle.state_core.specs.ZoneState.{ZoneState};
ghost use Rattle.state_core.specs.declared.call.ZoneCall.{ZoneCall as Call};

/// A call that isn't refused leaves a valid zone valid, with its number, its pageblocks and its page size. The journal has one
/// record more, which the call and its answer tell, and one place less.
pub fn calls_keep_the_law()
    ensures valid { (W : ℕ) (call : Call W) (client : ℕ) (z : ZoneState) → IsValidZone z → IsInRange call → refusal_of call z ≡ None → IsValidZone (after call client z) }
    ensures identity { (W : ℕ) (call : Call W) (client : ℕ) (z : ZoneState) → ((after call client z).number ≡ z.number) × ((after call client z).blocks ≡ z.blocks) × ((after call client z).page_size ≡ z.page_size) }
    ensures answered { (W : ℕ) (call : Call W) (z : ZoneState) → IsTrue (answers call (answer_of call z)) }
    ensures recorded { (W : ℕ) (call : Call W) (client : ℕ) (z : ZoneState) → (after call client z).records ≡ record_of call client (answer_of call z) ∷ z.records }
    ensures room { (W : ℕ) (call : Call W) (client : ℕ) (z : ZoneState) → refusal_of call z ≡ None → (after call client z).room + 1 ≡ z.room }
{}
