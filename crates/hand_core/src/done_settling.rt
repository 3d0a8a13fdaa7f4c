ghost use Rattle.std.specs.Prelude.{◌≡◌, true, List, [], All};
ghost use Rattle.hand_core.specs.declared.copy_queue.Message.{Message};
ghost use Rattle.hand_core.specs.CopyEnds.{Holds, copies_of, has_ended};

use crate::copy_queue::{Folds, Whole};
use crate::done_sender::DoneSender;
use crate::done_taker::DoneTaker;

/// For a taker that was answered the end: what it received of each sender is all that the sender sent, in its order, and the
/// queue holds nothing, neither copies nor marks. The senders have to be of the taker's queue.
pub fn done_settle(taker: DoneTaker, mut senders: Vec<DoneSender>)
    requires queue { All (λ s. s.queue ≡ taker.queue) senders.items }
    requires ended { has_ended taker ≡ true }
    ensures copies { All (λ s. copies_of s.number taker.came ≡ s.sent) senders.items }
    ensures empty { (queue : List Message) → Holds queue taker → queue ≡ [] }
{
    let DoneTaker { mut pass, .. } = taker;
    while let Some(sender) = senders.pop() {
        let DoneSender {
            to,
            pass: theirs,
            ..
        } = sender;
        to.absorb::<Folds>(&mut pass, theirs);
        to.learn_as::<Whole>(&mut pass);
    }
}
