//! What the definitions say whatever the images are. The function has nothing to do when it runs: its contract is the
//! laws.

ghost use Rattle.std.specs.Prelude.{◌≡◌, ◌↔◌, ℕ, List, None, Some, length};
ghost use Rattle.armcaps_pool.specs.Audits.{IsFirstDifference, first_difference};

/// Of two images of one length no difference is told exactly where they are equal, and else the first: the bytes there
/// are not equal, and all before them are.
pub fn differences_are_told()
    ensures equal { (one other : List ℕ) → length one ≡ length other
        → (first_difference one other ≡ None) ↔ (one ≡ other) }
    ensures first { (one other : List ℕ) (place : ℕ) → length one ≡ length other
        → first_difference one other ≡ Some place → IsFirstDifference one other place }
{}
