//! What holds of both queues after each step of their ends, in every schedule.

ghost use Rattle.std.specs.Prelude.{◌≡◌, ℕ, ◌*◌, ◌≤◌, ◌++◌, ◌∷◌, [], List, length, All};
ghost use Rattle.hand_core.specs.declared.copy_queue.Message.{Message as CopyMessage};
ghost use Rattle.hand_core.specs.declared.page_queue.Note.{Note as Message};
ghost use Rattle.hand_core.specs.declared.page_queue.Note.TheVariants.{Pages};
ghost use Rattle.hand_core.specs.CopyEnds.{DoneSender, DoneTaker, copies_in};
ghost use Rattle.hand_core.specs.CopyRoom.{HoldsWith};
ghost use Rattle.hand_core.specs.HandedOver.{Holds, IsHandedOver};
ghost use Rattle.hand_core.specs.Batches.{Batch};
ghost use Rattle.hand_core.specs.PageEnds.{Giver, Taker};

/// Pages come off in the order in which they were given, each once, and the end marks after them. Pages go in only as long as no mark
/// was put, so the number of pages given stands from then on.
pub fn hands_over_in_order()
    ensures in_order { (queue : List Message) (giver : Giver) (takers : List Taker) → Holds queue giver takers → IsHandedOver queue giver takers }
    ensures closed { (queue : List Message) (batch : Batch) (giver : Giver) (takers : List Taker) → Holds (queue ++ Pages batch ∷ []) giver takers → giver.marks ≡ 0 }
{}

/// No more copies are in their queue than it has room for: its room is so many batches, and no sender puts more copies in one than a
/// batch has at most.
pub fn copies_keep_to_their_room()
    ensures { (queue : List CopyMessage) (taker : DoneTaker) (senders : List DoneSender) (most : ℕ) → HoldsWith queue taker senders → All (λ s. s.most ≤ most) senders → length (copies_in queue) ≤ taker.room * most }
{}
