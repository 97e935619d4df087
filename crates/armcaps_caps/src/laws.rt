//! What the definitions say whatever the values are. These functions have nothing to do when they run: each one's
//! contract is a law.

ghost use Rattle.std.specs.Prelude.{◌≡◌, ◌<◌, ◌++◌, ◌∷◌, ℕ, List, length, None, false, true};
ghost use Rattle.std.specs.List.{list_any};
ghost use Rattle.armcaps_enc.specs.declared.register.SysReg.TheVariants.{CtrEl0};
ghost use Rattle.armcaps_tables.specs.Core.{Core, core_word, word_at};
ghost use Rattle.armcaps_tables.specs.Overriding.{FieldOverrides, override_of};
ghost use Rattle.armcaps_tables.specs.Rows.{rows_of};
ghost use Rattle.armcaps_sanit.specs.System.{IsSystemOf};
ghost use Rattle.armcaps_caps.specs.Capabilities.{capability_over, core_has_capability, system_has_capability};
ghost use Rattle.armcaps_caps.specs.Rows.{capability_count};
ghost use Rattle.armcaps_caps.specs.Scopes.{ScopesHold};

/// A system's words tell of a capability what the cores that it stands for do together, and a capability that all cores
/// of a list have together each of them has. The word of CTR_EL0 that is compared with counts for one capability alone.
pub fn each_core_has_what_all_have()
    ensures words { (overrides : FieldOverrides) (cores : List Core) (words : List ℕ) (number : ℕ)
        → IsSystemOf overrides cores words
        → system_has_capability words number ≡ capability_over overrides cores number }
    ensures each { (overrides : FieldOverrides) (before after : List Core) (boot core : Core) (ctr number : ℕ)
        → capability_over overrides (before ++ core ∷ after) number ≡ true
        → core_has_capability overrides boot ctr core number ≡ true }
    ensures ctr { (overrides : FieldOverrides) (boot core : Core) (one other number : ℕ) → (number ≡ 42 → ⊥)
        → core_has_capability overrides boot one core number ≡ core_has_capability overrides boot other core number }
{}

/// Where no core of a list differs from the boot core in its cache type, and no override is of CTR_EL0, a core's cache
/// type differs from the word that a system keeps of these cores exactly where it differs from the boot core's word.
pub fn cache_types_compare()
    ensures { (overrides : FieldOverrides) (cores : List Core) (words : List ℕ) (boot core : Core)
        → IsSystemOf overrides cores words
        → ((index : ℕ) → index < length (rows_of CtrEl0) → override_of overrides CtrEl0 index ≡ None)
        → list_any (λ other. core_has_capability overrides boot (core_word boot CtrEl0) other 42) cores ≡ false
        → core_has_capability overrides boot (word_at words CtrEl0) core 42
        ≡ core_has_capability overrides boot (core_word boot CtrEl0) core 42 }
{}

/// A capability is decided in one way. One of system scope is permitted and not optional, one of local scope is
/// optional, one that stops the machine is of boot scope, and one that works around an erratum is of local scope and
/// not permitted.
pub fn classes_hold()
    ensures { (number : ℕ) → number < capability_count → ScopesHold number }
{}
