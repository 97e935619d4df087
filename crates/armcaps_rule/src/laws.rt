//! What the definitions say whatever the values are. These functions have nothing to do when they run: each one's
//! contract is a law.

ghost use Rattle.std.specs.Prelude.{◌≡◌, ◌≢◌, ◌+◌, ◌<◌, ◌∷◌, ◌++◌, Some, length};
ghost use Rattle.armcaps_rule.specs.Rule.{fold_of, forced_of, merged};

use crate::rule::Rule;

/// Merging is a join of values: equal values stay, and neither order nor grouping matters.
pub fn merge_joins(rule: Rule, safe: i64, first: i64, second: i64, third: i64)
    ensures same { merged rule safe first first ≡ first }
    ensures order { merged rule safe first second ≡ merged rule safe second first }
    ensures grouping { merged rule safe (merged rule safe first second) third
        ≡ merged rule safe first (merged rule safe second third) }
{}

/// A value that comes to others, in whatever place it stands among them, is merged into their one value. So the order
/// in which values come decides nothing.
pub fn insert_merges(
    rule: Rule,
    safe: i64,
    override_: Option<i64>,
    before: &[i64],
    value: i64,
    after: &[i64],
)
    requires { 0 < length before.now + length after.now }
    ensures fold { fold_of rule safe (before.now ++ value ∷ after.now)
        ≡ merged rule safe (fold_of rule safe (before.now ++ after.now)) value }
    ensures forced { forced_of rule safe override_ (before.now ++ value ∷ after.now)
        ≡ merged rule safe (forced_of rule safe override_ (before.now ++ after.now)) value }
{}

/// A value that is among others already, in whatever place, changes nothing where it is merged once more.
pub fn merging_again_changes_nothing(
    rule: Rule,
    safe: i64,
    override_: Option<i64>,
    before: &[i64],
    value: i64,
    after: &[i64],
)
    ensures { merged rule safe (forced_of rule safe override_ (before.now ++ value ∷ after.now)) value
        ≡ forced_of rule safe override_ (before.now ++ value ∷ after.now) }
{}

/// An override that merging with some core's value gives back is taken: it counts as one more value. Any other leaves
/// no mark, whatever values stand beside that one.
pub fn override_is_taken_or_ignored(
    rule: Rule,
    safe: i64,
    override_: i64,
    before: &[i64],
    value: i64,
    after: &[i64],
)
    ensures taken { merged rule safe override_ value ≡ override_
        → forced_of rule safe (Some override_) (before.now ++ value ∷ after.now)
        ≡ fold_of rule safe (override_ ∷ (before.now ++ value ∷ after.now)) }
    ensures ignored { merged rule safe override_ value ≢ override_
        → forced_of rule safe (Some override_) (before.now ++ value ∷ after.now)
        ≡ fold_of rule safe (before.now ++ value ∷ after.now) }
{}
