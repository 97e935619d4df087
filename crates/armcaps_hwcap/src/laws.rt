//! What the definitions say whatever the values are. This function has nothing to do when it runs: its contract is a
//! law.

ghost use Rattle.std.specs.Prelude.{◌≡◌, ◌++◌, ◌∷◌, ℕ, List, true};
ghost use Rattle.armcaps_tables.specs.Core.{Core};
ghost use Rattle.armcaps_tables.specs.Overriding.{FieldOverrides};
ghost use Rattle.armcaps_sanit.specs.System.{IsSystemOf};
ghost use Rattle.armcaps_hwcap.specs.Hwcaps.{core_has_hwcap, hwcap_over, system_has_hwcap};

/// A system's words tell of a hwcap what the cores that it stands for do together, and a hwcap that all cores of a list
/// have together each of them has.
pub fn each_core_has_what_is_advertised()
    ensures words { (overrides : FieldOverrides) (cores : List Core) (words : List ℕ) (index : ℕ)
        → IsSystemOf overrides cores words
        → system_has_hwcap words index ≡ hwcap_over overrides cores index }
    ensures each { (overrides : FieldOverrides) (before after : List Core) (core : Core) (index : ℕ)
        → hwcap_over overrides (before ++ core ∷ after) index ≡ true → core_has_hwcap overrides core index ≡ true }
{}
