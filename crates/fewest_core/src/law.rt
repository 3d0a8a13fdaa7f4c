//! What no list of moves can beat.

ghost use Rattle.std.specs.Prelude.{◌≡◌, ℕ, ◌+◌, ◌<◌, ◌≤◌, ◌*◌, Bool, true, false, Option, List, length};
ghost use Rattle.fewest_core.specs.FewestMoves.{Move, AreMoves, IsMove, IsRearranged, after_move, after_moves, cost, cost_of, costs, is_elsewhere, is_open, least, move_of, run_count};
ghost use Rattle.fewest_core.specs.Reservation.{is_picked};
ghost use Rattle.frame_core.specs.Below.{count_below};
ghost use Rattle.frame_core.specs.Moves.{isolated, moved};
ghost use Rattle.state_core.specs.Ending.{moved_to_target};
ghost use Rattle.state_core.specs.Isolating.{isolated_next};
ghost use Rattle.state_core.specs.Packed.{free_runs, left_runs, unmarked_free};
ghost use Rattle.state_core.specs.Pairs.{IsPair};
ghost use Rattle.state_core.specs.Valid.{IsValidZone};
ghost use Rattle.state_core.specs.ZoneState.{ZoneState, frame_count};
ghost use Rattle.state_core.specs.declared.round.Pair.{Pair};

/// To make n aligned runs free by moves takes at least as many moves as the n cheapest open runs cost together (`fewest`), and the
/// journal has a record of each (`recorded`). Moves make no more runs free than are open (`possible`), nor more than the free frames
/// of unmarked pageblocks fill (`fits`). Where so many are open and so many frames are free, that least number of moves is enough
/// (`reached`). A page that a round isolates and then moves makes such a move, besides which the fingers go on (`rounds`).
///
/// Without moves: where some placement of the pages would leave n runs free, at least so many pages would be elsewhere
/// (`elsewhere`). Some n open runs cost just the least (`attained`), and so do open runs that are chosen by their costs, each at
/// most as dear as each open run that is left out (`picked`). The n cheapest open runs, the lowest first of equals, are such a
/// choice of n (`cheapest`).
pub fn fewest_moves()
    ensures fewest { (size n : ℕ) (z : ZoneState) (moves : List Move) → AreMoves z moves → n ≤ free_runs (after_moves z moves) size → least n z size ≤ length moves }
    ensures recorded { (z : ZoneState) (moves : List Move) → moved (after_moves z moves).records ≡ moved z.records + length moves }
    ensures possible { (size : ℕ) (z : ZoneState) (moves : List Move) → AreMoves z moves → free_runs (after_moves z moves) size ≤ length (costs z size) }
    ensures fits { (size : ℕ) (z : ZoneState) (moves : List Move) → 0 < size → AreMoves z moves → size * free_runs (after_moves z moves) size ≤ unmarked_free z }
    ensures reached { (size n : ℕ) (z : ZoneState) → 0 < size → IsValidZone z → n ≤ length (costs z size) → size * n ≤ unmarked_free z → (moves : List Move) × AreMoves z moves × (n ≤ free_runs (after_moves z moves) size) × (length moves ≡ least n z size) }
    ensures rounds { (z : ZoneState) (pair : Pair) → IsValidZone z → IsPair z pair.page pair.source pair.target → IsMove z (move_of pair) × (moved_to_target (isolated_next z pair) (isolated z.records) pair.page ≡ record (after_move z (move_of pair)) { migrate = pair.source + 1; free = pair.target }) }
    ensures elsewhere { (size n : ℕ) (z : ZoneState) (place : ℕ → Option ℕ) → IsRearranged z place → n ≤ left_runs z place size → least n z size ≤ count_below (is_elsewhere z place) (frame_count z) }
    ensures attained { (size n : ℕ) (z : ZoneState) → n ≤ length (costs z size) → (chosen : ℕ → Bool) × ((run : ℕ) → chosen run ≡ true → (run < run_count z size) × (is_open z size run ≡ true)) × (count_below chosen (run_count z size) ≡ n) × (cost_of chosen z size ≡ least n z size) }
    ensures picked { (size most : ℕ) (z : ZoneState) (chosen : ℕ → Bool) → ((run : ℕ) → chosen run ≡ true → (is_open z size run ≡ true) × (cost z size run ≤ most)) → ((run : ℕ) → run < run_count z size → chosen run ≡ false → is_open z size run ≡ true → most ≤ cost z size run) → cost_of chosen z size ≡ least (count_below chosen (run_count z size)) z size }
    ensures cheapest { (size n : ℕ) (z : ZoneState) → n ≤ length (costs z size) → (count_below (is_picked z size n) (run_count z size) ≡ n) × (cost_of (is_picked z size n) z size ≡ least n z size) }
{}
