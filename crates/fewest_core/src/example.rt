//! What the words of the law say of a small zone, as worked out by hand.

ghost use Rattle.std.specs.Prelude.{◌≡◌, false, [], ◌∷◌};
ghost use Rattle.fewest_core.specs.Example.{example, example_move};
ghost use Rattle.fewest_core.specs.FewestMoves.{IsMove, after_move, cost, costs, is_open, least};
ghost use Rattle.state_core.specs.Packed.{free_runs};

/// Of the four runs of 128 frames in the example three are open, and cost 3, 1 and 2. In the other the one page is pinned. No run
/// is free, and one move makes one free.
pub fn worked_example()
    ensures costs { costs example 128 ≡ 1 ∷ 2 ∷ 3 ∷ [] }
    ensures pinned { (cost example 128 1 ≡ 1) × (is_open example 128 1 ≡ false) }
    ensures least { (least 1 example 128 ≡ 1) × (least 2 example 128 ≡ 3) × (least 3 example 128 ≡ 6) }
    ensures may_move { IsMove example example_move }
    ensures freed { (free_runs example 128 ≡ 0) × (free_runs (after_move example example_move) 128 ≡ 1) }
{}
