//! Laws over whole runs. Each function has one law as its contract, and does nothing.

ghost use Rattle.std.specs.Prelude.{◌≡◌, ℕ, ◌<◌, ◌≤◌, [], List, None};
ghost use Rattle.machine_core.specs.Machine.{calls_step};
ghost use Rattle.machine_core.specs.Replies.{answers_of};
ghost use Rattle.text_core.specs.Script.{commands_of, Answer, Numbered};
ghost use Rattle.script_core.specs.MachineByHand.{answers_by_hand, answers_by_hand_from};
ghost use Rattle.script_core.specs.Counts.{CountsAddUp};
ghost use Rattle.script_core.specs.Profile2.{IsSameInProfile2, fault_in_profile_1};
ghost use Rattle.script_core.specs.Values.{ValuesAreStored};
ghost use Rattle.script_core.specs.Worlds.{IsSameWorld};
ghost use Rattle.text_core.specs.declared.command.Calls.{Calls};
ghost use Rattle.machine_core.specs.World.{WorldState};
ghost use Rattle.text_core.specs.Runs.{Replied};
ghost use Rattle.script_core.specs.ByHand.{Followed, IsByHandStep, NoneRefused, To};

/// Each value in a reply is the last one that was stored before it, through whatever address, in that word of that page
/// since the page was mapped, or 0 if there is none.
pub fn values_are_stored()
    ensures one_thread { (places : ℕ) (input : List ℕ) → (0 < places) × (places ≤ 65536) → ValuesAreStored [] (commands_of input) (answers_of places input) }
    ensures by_hand { (places : ℕ) (input : List ℕ) → (0 < places) × (places ≤ 65536) → ValuesAreStored [] (commands_of input) (answers_by_hand places input) }
{}

/// In each reply to `info`, the free frames, the pages, the moving pages and the frames handed out add up to the frames of the zone.
pub fn counts_add_up()
    ensures one_thread { (places : ℕ) (input : List ℕ) → (0 < places) × (places ≤ 65536) → CountsAddUp (commands_of input) (answers_of places input) }
    ensures by_hand { (places : ℕ) (input : List ℕ) → (0 < places) × (places ≤ 65536) → CountsAddUp (commands_of input) (answers_by_hand places input) }
{}

/// A script without a fault in profile 1 has the same replies after the line `profile 2`, except for the first `ok`, and
/// for the number of frames handed out at the end of the replies to `info`.
pub fn profile_2_keeps_replies()
    ensures one_thread { (places : ℕ) (input : List ℕ) → fault_in_profile_1 input ≡ None → IsSameInProfile2 (answers_of places) input }
    ensures by_hand { (places : ℕ) (input : List ℕ) → fault_in_profile_1 input ≡ None → IsSameInProfile2 (answers_by_hand places) input }
{}

/// Worlds that are the same but for the order in which moves ended answer calls alike, refusals too, and are still the same after them.
pub fn worlds_agree()
    ensures { (v w : WorldState) → IsSameWorld v w → (c : Calls) → ((calls_step v c).reply ≡ (calls_step w c).reply) × IsSameWorld (calls_step v c).world (calls_step w c).world }
{}

/// Where no reply tells that a round was refused, the replies are exactly those of the machine that makes its rounds by hand.
pub fn replies_are_by_hand()
    ensures { (places : ℕ) (commands : List Numbered) (answers : List Answer) (after : Followed) → Replied (IsByHandStep places) (To None) commands answers after → NoneRefused answers → answers ≡ answers_by_hand_from places None commands }
{}
