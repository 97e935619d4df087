ghost use Rattle.std.specs.Prelude.{◌≡◌, ◌<◌, IfOk, IfSome, length};
ghost use Rattle.armcaps_boot.specs.Findings.{findings_of};
ghost use Rattle.armcaps_mrs.specs.Reading.{emulated_word, is_emulated_number, user_read, value_read};

use crate::read::UserRead;
use crate::refused::UserRefused;
use armcaps_boot::{Boot, CoreState};
use armcaps_enc::{MrsWord, SysReg};

/// What an instruction word that a program of a user runs on a core reads, before finalisation or after it. The core
/// is judged first: one that doesn't run is refused, whatever the word. The word is refused where it is no MRS of a
/// register whose reads are emulated.
///
/// Source: Linux, arch/arm64/kernel/cpufeature.c, `do_emulate_mrs`.
#[tactic(auto, unfolding(crate::specs::Reading::user_read))]
pub fn read_user(boot: &Boot, core: u32, word: u32) -> Result<UserRead, UserRefused>
    ensures value { result ≡ user_read (findings_of boot.now) core word }
    ensures target { IfOk result (λ read. read.rt < 32) }
{
    boot.facts_hold();
    let state = boot.state(core);
    let Some(CoreState::Admitted { .. }) = state else {
        return Err(UserRefused::NotAdmitted { state });
    };
    match emulated_read(word) {
        Some(read) => Ok(UserRead {
            rt: read.rt,
            value: value(boot, core, SysReg::of_number(read.id)),
        }),
        None => Err(UserRefused::Undefined),
    }
}

// What a word reads, where its read is emulated.
fn emulated_read(word: u32) -> Option<MrsWord>
    ensures value { result ≡ emulated_word word }
    ensures target { IfSome result (λ read. read.rt < 32) }
{
    match MrsWord::read(word) {
        Some(read) if is_emulated(read.id) => Some(read),
        _ => None,
    }
}

// Whether reads of the register of this number are emulated.
fn is_emulated(id: u32) -> bool
    ensures { result ≡ is_emulated_number id }
{
    let (crn, crm, op2) = (id >> 12 & 15, id >> 8 & 15, id >> 5 & 7);
    crn == 0 && matches!((crm, op2), (4..=7, _) | (0, 0 | 5 | 6))
}

// What a core reads from a register.
#[tactic(auto, unfolding(crate::specs::Reading::value_read))]
fn value(boot: &Boot, core: u32, register: Option<SysReg>) -> u64
    requires { core < length boot.now.board.cores }
    ensures { result ≡ value_read (findings_of boot.now) core register }
{
    match register {
        Some(SysReg::MidrEl1) => boot.core(core).unwrap().get(SysReg::MidrEl1),
        Some(SysReg::MpidrEl1) => 1 << 31,
        Some(SysReg::RevidrEl1) | None => 0,
        Some(register) => boot.system().user_word(register),
    }
}
