ghost use Rattle.std.specs.Prelude.{◌≡◌, ◌<◌, List};
ghost use Rattle.armcaps_tables.specs.Core.{Core};
ghost use Rattle.armcaps_sanit.specs.Reaching.{word_values};
ghost use Rattle.armcaps_tables.specs.Overriding.{FieldOverrides};
ghost use Rattle.armcaps_sanit.specs.System.{IsSystemOf, system_field};
ghost use Rattle.armcaps_caps.specs.Capabilities.{capability_over, conflicts, core_has_capability, core_passes, system_has_capability, system_passes};
ghost use Rattle.armcaps_caps.specs.Facts.{IsAskable};
ghost use Rattle.armcaps_caps.specs.Rows.{capability_count};

use crate::cap_row::Test;
use crate::scopes::{is_optional, is_permitted};
use crate::table::test_at;
use armcaps_enc::SysReg;
use armcaps_errata::affected_by;
use armcaps_sanit::{System, local, words_vary};
use armcaps_tables::{CoreRegs, Overrides};

/// Whether a core has the capability of this number. Of each field its own value counts, under the overrides. `ctr` is
/// the word of CTR_EL0 with which the core's cache type is compared.
#[tactic(auto, unfolding(crate::specs::Capabilities::core_has_capability))]
pub fn has(number: u16, boot: &CoreRegs, core: &CoreRegs, overrides: &Overrides, ctr: u64) -> bool
    requires { number < capability_count }
    ensures { result ≡ core_has_capability overrides.now boot.now ctr core.now number }
{
    passes(test_at(number), boot, core, overrides, ctr)
}

// Whether a core passes a test.
fn passes(test: Test, boot: &CoreRegs, core: &CoreRegs, overrides: &Overrides, ctr: u64) -> bool
    requires { IsAskable test }
    ensures { result ≡ core_passes overrides.now boot.now ctr core.now test }
{
    match test {
        Test::Always => true,
        Test::AtLeast { reg, index, min } => local(overrides, core, reg, index) >= min,
        Test::SameAsBoot { reg, index, min } => {
            let value = local(overrides, core, reg, index);
            value >= min && value == local(overrides, boot, reg, index)
        }
        Test::Erratum { index } => affected_by(index, core),
        Test::CacheType => words_vary(SysReg::CtrEl0, ctr, core.get(SysReg::CtrEl0)),
    }
}

/// Whether the system has the capability of this number, by what all cores that it stands for have in common. It is
/// asked of capabilities of system scope.
#[tactic(auto, unfolding(crate::specs::Capabilities::system_has_capability, crate::specs::Capabilities::capability_over))]
pub fn system_has(number: u16, system: &System) -> bool
    requires { number < capability_count }
    ensures words { result ≡ system_has_capability system.now number }
    ensures stands { (overrides : FieldOverrides) (cores : List Core) → IsSystemOf overrides cores system.now
        → result ≡ capability_over overrides cores number }
{
    system_passes_test(test_at(number), system)
}

// Whether the system passes a test.
fn system_passes_test(test: Test, system: &System) -> bool
    requires { IsAskable test }
    ensures words { result ≡ system_passes (word_values system.now) test }
    ensures stands { (overrides : FieldOverrides) (cores : List Core) → IsSystemOf overrides cores system.now
        → result ≡ system_passes (system_field overrides cores) test }
{
    match test {
        Test::Always => true,
        Test::AtLeast { reg, index, min } => system.field(reg, index) >= min,
        Test::SameAsBoot { .. } | Test::Erratum { .. } | Test::CacheType => false,
    }
}

/// Whether a core that comes up later conflicts with the capability of this number, where `enabled` says whether it is
/// enabled and `present` whether the core has it (Linux, `verify_local_cpu_caps`).
pub fn conflict(number: u16, enabled: bool, present: bool) -> bool
    requires { number < capability_count }
    ensures { result ≡ conflicts number enabled present }
{
    enabled && !present && !is_optional(number) || present && !enabled && !is_permitted(number)
}
