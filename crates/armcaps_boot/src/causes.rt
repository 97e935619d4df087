ghost use Rattle.std.specs.Prelude.{◌≡◌, ◌≤◌, ◌<◌, ◌&&◌, not, nat_lt, length, IfSome, Option};
ghost use Rattle.armcaps_caps.specs.Capabilities.{conflicts};
ghost use Rattle.armcaps_caps.specs.Rows.{capability_count};
ghost use Rattle.armcaps_caps.specs.Set.{holds};
ghost use Rattle.armcaps_hwcap.specs.Hwcaps.{core_has_hwcap};
ghost use Rattle.armcaps_hwcap.specs.Rows.{hwcap_count};
ghost use Rattle.armcaps_hwcap.specs.Words.{set_has_row};
ghost use Rattle.armcaps_boot.specs.Causes as causes;
ghost use Rattle.armcaps_boot.specs.Numbers.{first_of};
ghost use Rattle.armcaps_boot.specs.Scopes.{conflict_with, has_by, held_at_check, in_scope, lack_of};

use crate::cause::Cause;
use armcaps_bits::Bits;
use armcaps_board::Board;
use armcaps_caps::{CAPABILITIES, CapSet, conflict, has, is_boot_scope};
use armcaps_enc::SysReg;
use armcaps_hwcap::{HWCAPS, HwSet, core_has};
use armcaps_tables::CoreRegs;

// Whether a core's ASIDs have fewer bits than the boot core's.
fn has_fewer_asids(boot: &CoreRegs, core: &CoreRegs) -> bool
    ensures { result ≡ nat_lt (causes.asid_bits core.now) (causes.asid_bits boot.now) }
{
    asid_bits(core) < asid_bits(boot)
}

// The number of a core's ASID bits (Arm ARM DDI 0487, ID_AA64MMFR0_EL1, ASIDBits).
fn asid_bits(core: &CoreRegs) -> u32
    ensures { result ≡ causes.asid_bits core.now }
{
    if Bits::<4, 4>::unsigned(core.get(SysReg::IdAa64Mmfr0El1)) == 2 {
        16
    } else {
        8
    }
}

/// Why a core is held back at its check.
pub(crate) fn cause_at_check(
    enabled: &CapSet,
    board: &Board,
    core: &CoreRegs,
    ctr: u64,
) -> Option<Cause>
    requires { board.now.boot < length board.now.cores }
    ensures cause { result ≡ held_at_check enabled.now board.now core.now ctr }
    ensures numbered { IfSome result causes.IsNumbered }
{
    if has_fewer_asids(board.boot_core(), core) {
        return Some(Cause::Asid);
    }
    match first_conflict(true, enabled, board, core, ctr) {
        Some(number) => Some(Cause::Cap(number)),
        None => None,
    }
}

/// Why a core that is verified after finalisation is held back: the first thing that it lacks of what the system has.
pub(crate) fn cause_at_verification(
    enabled: &CapSet,
    hwcaps: &HwSet,
    lengths: u16,
    board: &Board,
    core: &CoreRegs,
    ctr: u64,
) -> Option<Cause>
    requires { board.now.boot < length board.now.cores }
    ensures cause { result ≡ lack_of enabled.now hwcaps.now lengths board.now core.now ctr }
    ensures numbered { IfSome result causes.IsNumbered }
{
    if let Some(number) = first_conflict(false, enabled, board, core, ctr) {
        return Some(Cause::Cap(number));
    }
    if let Some(index) = first_lacking_hwcap(hwcaps, board, core) {
        return Some(Cause::Hwcap(index));
    }
    match first_lacking_length(lengths, core) {
        Some(length) => Some(Cause::Vector(length)),
        None => None,
    }
}

// The first capability of boot scope, or else of another, with which a core is in conflict. Its cache type is
// compared with that of `ctr`.
fn first_conflict(
    of_boot_scope: bool,
    enabled: &CapSet,
    board: &Board,
    core: &CoreRegs,
    ctr: u64,
) -> Option<u16>
    requires { board.now.boot < length board.now.cores }
    ensures first { result ≡ conflict_with of_boot_scope enabled.now board.now core.now ctr }
    ensures within { IfSome result (λ number. number < capability_count) }
{
    for number in 0..CAPABILITIES {
        if is_in_conflict(number, of_boot_scope, enabled, board, core, ctr) {
            return Some(number);
        }
    }
    None
}

// Whether a core is in conflict with the capability of this number, which is of boot scope or is not. The core is
// looked at only where it would be.
fn is_in_conflict(
    number: u16,
    of_boot_scope: bool,
    enabled: &CapSet,
    board: &Board,
    core: &CoreRegs,
    ctr: u64,
) -> bool
    requires within { number < capability_count }
    requires boot_core { board.now.boot < length board.now.cores }
    ensures { result ≡ (in_scope of_boot_scope number
        && conflicts number (holds enabled.now number) (has_by board.now ctr core.now number)) }
{
    let is_enabled = enabled.contains(number);
    is_in_scope(of_boot_scope, number)
        && conflict(number, is_enabled, !is_enabled)
        && has(number, board.boot_core(), core, &board.overrides, ctr) != is_enabled
}

fn is_in_scope(of_boot_scope: bool, number: u16) -> bool
    requires { number < capability_count }
    ensures { result ≡ in_scope of_boot_scope number }
{
    if of_boot_scope {
        is_boot_scope(number)
    } else {
        !is_boot_scope(number)
    }
}

// The first hwcap of these that a core lacks.
fn first_lacking_hwcap(hwcaps: &HwSet, board: &Board, core: &CoreRegs) -> Option<u16>
    ensures { result ≡ first_of 0 hwcap_count
        (λ index. set_has_row hwcaps.now index && not (core_has_hwcap board.now.overrides core.now index)) }
{
    for index in 0..HWCAPS as u16 {
        if is_lacking(index as usize, hwcaps, board, core) {
            return Some(index);
        }
    }
    None
}

// Whether the hwcap at this place of the table is one of these and a core lacks it.
fn is_lacking(index: usize, hwcaps: &HwSet, board: &Board, core: &CoreRegs) -> bool
    requires { index < hwcap_count }
    ensures { result ≡ (set_has_row hwcaps.now index && not (core_has_hwcap board.now.overrides core.now index)) }
{
    hwcaps.contains(index) && !core_has(index, &board.overrides, core)
}

// The first vector length of these that a core lacks.
fn first_lacking_length(lengths: u16, core: &CoreRegs) -> Option<u8>
    ensures { result ≡ first_of 1 16
        (λ length. causes.has_length lengths length && not (causes.has_length core.now.lengths length)) }
{
    for length in 1..17u8 {
        if is_short_of(length, lengths, core.vls()) {
            return Some(length);
        }
    }
    None
}

// Whether a vector length is among the first lengths, and not among the second.
fn is_short_of(length: u8, lengths: u16, own: u16) -> bool
    requires { (1 ≤ length) × (length ≤ 16) }
    ensures { result ≡ (causes.has_length lengths length && not (causes.has_length own length)) }
{
    has_length(lengths, length) && !has_length(own, length)
}

fn has_length(lengths: u16, length: u8) -> bool
    requires { (1 ≤ length) × (length ≤ 16) }
    ensures { result ≡ causes.has_length lengths length }
{
    lengths >> (length - 1) & 1 == 1
}
