ghost use Rattle.std.specs.Prelude.{◌≡◌, ◌<◌, ◌≤◌, ◌&&◌, ◌||◌, ℕ, None, Some, length};
ghost use Rattle.armcaps_caps.specs.Rows.{capability_count};
ghost use Rattle.armcaps_caps.specs.Set.{holds};
ghost use Rattle.armcaps_boot.specs.Answers as answers;
ghost use Rattle.armcaps_boot.specs.Scopes as asked;

use crate::core_state::CoreState;
use crate::states::is_in_flight;
use armcaps_board::Board;
use armcaps_caps::{CAPABILITIES, CapSet, has, is_boot_scope, is_local_scope, system_has};
use armcaps_sanit::System;
use armcaps_tables::CoreRegs;

/// A set of capabilities, with those of boot scope, or else the local ones, that a core has. Its cache type is
/// compared with that of `ctr`.
pub(crate) fn with_own(
    given: CapSet,
    of_boot_scope: bool,
    board: &Board,
    core: &CoreRegs,
    ctr: u64,
) -> CapSet
    requires { board.now.boot < length board.now.cores }
    ensures { (n : ℕ) → n < capability_count
        → holds result n
        ≡ (holds given n || (asked.own_scope of_boot_scope n && asked.has_by board.now ctr core.now n)) }
{
    let mut set = given;
    for number in 0..CAPABILITIES {
        if is_own(number, of_boot_scope, board, core, ctr) {
            set.insert(number);
        }
    }
    set
}

// Whether the capability of this number is of the scope and a core has it.
fn is_own(number: u16, of_boot_scope: bool, board: &Board, core: &CoreRegs, ctr: u64) -> bool
    requires within { number < capability_count }
    requires boot_core { board.now.boot < length board.now.cores }
    ensures { result ≡ (asked.own_scope of_boot_scope number && asked.has_by board.now ctr core.now number) }
{
    let in_scope = if of_boot_scope {
        is_boot_scope(number)
    } else {
        is_local_scope(number)
    };
    in_scope && has(number, board.boot_core(), core, &board.overrides, ctr)
}

/// The capabilities that are enabled at finalisation: those of boot scope that were enabled before, the local ones
/// that were noted, and those that all cores of the system have together.
pub(crate) fn decided(enabled: &CapSet, noted: &CapSet, system: &System) -> CapSet
    ensures { (n : ℕ) → n < capability_count → holds result n ≡ asked.enabled_by enabled.now noted.now system.now n }
{
    let mut set = CapSet::empty();
    for number in 0..CAPABILITIES {
        if is_enabled(number, enabled, noted, system) {
            set.insert(number);
        }
    }
    set
}

// Whether the capability of this number is enabled at finalisation.
#[tactic(auto, unfolding(crate::specs::Scopes::enabled_by))]
fn is_enabled(number: u16, enabled: &CapSet, noted: &CapSet, system: &System) -> bool
    requires { number < capability_count }
    ensures { result ≡ asked.enabled_by enabled.now noted.now system.now number }
{
    if is_boot_scope(number) {
        enabled.contains(number)
    } else if is_local_scope(number) {
        noted.contains(number)
    } else {
        system_has(number, system)
    }
}

/// The first core that has made its check and not yet its store. There are at most 512 cores.
pub(crate) fn first_in_flight(states: &[CoreState]) -> Option<u32>
    requires { length states.now ≤ 512 }
    ensures { result ≡ answers.first_in_flight states.now }
{
    for (number, state) in states.iter().enumerate() {
        if is_in_flight(*state) {
            return Some(number as u32);
        }
    }
    None
}
