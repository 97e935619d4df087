//! What the definitions say whatever the machines are. These functions have nothing to do when they run: each one's
//! contract is a law.

ghost use Rattle.std.specs.Prelude.{◌≡◌, ◌<◌, ◌+◌, ◌∷◌, ◌++◌, ℕ, List, Some, length, map, slice_get};
ghost use Rattle.std.specs.List.{All, flat_map};
ghost use Rattle.armcaps_enc.specs.declared.register.SysReg.{SysReg};
ghost use Rattle.armcaps_tables.specs.Row.{Row};
ghost use Rattle.armcaps_tables.specs.Rows.{rows_of};
ghost use Rattle.armcaps_baseline.specs.Baselines.{baseline_words, limiting_machine};

/// A baseline stands for its machines: the baseline of the baselines of some groups is the baseline of all machines, in
/// whatever groups they come, for fields of every rule.
pub fn groups_make_one_baseline()
    ensures { (groups : List (List (List ℕ))) → 0 < length groups → All (λ group. 0 < length group) groups
        → baseline_words (map baseline_words groups) ≡ baseline_words (flat_map (λ group. group) groups) }
{}

/// The machine that limits a field is told also where a baseline stands for the first machines: where it is that one,
/// the field is limited as among the first machines alone, and else it is the same machine, by its number among all.
pub fn groups_keep_their_limits()
    ensures within { (before after : List (List ℕ)) (reg : SysReg) (index : ℕ) (row : Row) → 0 < length before
        → slice_get (rows_of reg) index ≡ Some row
        → limiting_machine (baseline_words before ∷ after) reg row ≡ Some 0
        → limiting_machine (before ++ after) reg row ≡ limiting_machine before reg row }
    ensures beyond { (before after : List (List ℕ)) (reg : SysReg) (index number : ℕ) (row : Row) → 0 < length before
        → slice_get (rows_of reg) index ≡ Some row
        → limiting_machine (baseline_words before ∷ after) reg row ≡ Some (number + 1)
        → limiting_machine (before ++ after) reg row ≡ Some (length before + number) }
{}
