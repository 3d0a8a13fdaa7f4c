//! What holds of the records of moves, whatever was recorded.

ghost use Rattle.std.specs.Prelude.{◌≡◌, [], List};
ghost use Rattle.frame_core.specs.Ends.{EndsAtMostOnce, IsBalanced, AreEndedOnce};
ghost use Rattle.frame_core.specs.Moves.{IsWellEnded, out};
ghost use Rattle.frame_core.specs.declared.record.Record.{Record as Entry};

/// Each page that was isolated ends once: it is out, or it was moved, or it was put back, and never two of these.
pub fn ends_each_page_once()
    ensures at_most_once { (records : List Entry) → IsWellEnded records → EndsAtMostOnce records }
    ensures balanced { (records : List Entry) → IsWellEnded records → IsBalanced records }
    ensures once { (records : List Entry) → IsWellEnded records → out records ≡ [] → AreEndedOnce records }
{}
