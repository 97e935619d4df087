//! The best register set that each machine of a pool accepts.

ghost use Rattle.std.specs.Prelude.{◌≡◌, ◌<◌, ◌≤◌, ℕ, List, Some, IfOk, length};
ghost use Rattle.armcaps_enc.specs.declared.register.SysReg.{SysReg};
ghost use Rattle.armcaps_tables.specs.Row.{Row};
ghost use Rattle.armcaps_baseline.specs.Baselines.{IsAcceptedByAll, IsAtMost, IsLimiting, baseline_words, limiting_machine};

use crate::common_words::common;
use crate::pool_baseline::Baseline;
use armcaps_sanit::System;
use std::alloc::{AllocError, Global};

/// The baseline of 1 to 64 machines, told by their system registers. The machine at place 0 is the first.
///
/// Each machine accepts it, and every register set that each machine accepts is at most it, field by field. Each field
/// has a machine that limits it. An error comes only where there is no memory.
pub fn baseline(alloc: Global, systems: &[System]) -> Result<Baseline, AllocError>
    requires some { 0 < length systems.now }
    requires few { length systems.now ≤ 64 }
    ensures machines { IfOk result (λ baseline. baseline ≡ systems.now) }
    ensures accepted { IfOk result (λ baseline. IsAcceptedByAll (baseline_words baseline) systems.now) }
    ensures best { IfOk result (λ baseline. (words : List ℕ) → IsAcceptedByAll words systems.now
        → IsAtMost words (baseline_words baseline)) }
    ensures limited { IfOk result (λ baseline. (reg : SysReg) (row : Row) → (number : ℕ)
        × ((limiting_machine baseline reg row ≡ Some number) × IsLimiting systems.now reg row number)) }
{
    let machines = Vec::from_slice(alloc, systems)?;
    Ok(Baseline {
        machines,
        whole: common(systems),
    })
}
