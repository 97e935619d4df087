ghost use Rattle.std.specs.Prelude.{◌≡◌, ◌<◌};
ghost use Rattle.armcaps_alt.specs.Words.{IsIndex, callback_word_of};

use crate::callback_kind::CallbackKind;
use crate::smccc_conduit::Conduit;
use armcaps_insn::NOP;

// HVC #0, SMC #0, and MOVZ and MOVK of a 64-bit register (Arm ARM DDI 0487, "HVC", "SMC", "MOVZ", "MOVK").
const HVC: u32 = 0xd400_0002;

const SMC: u32 = 0xd400_0003;

const MOVZ: u32 = 0xd280_0000;

const MOVK: u32 = 0xf280_0000;

/// The word that a callback makes: the one at `index` from the site's first, in words. `first` is the site's original
/// first word and `orig` the one at this place, `ctr` is CTR_EL0 as the cores that came early share it.
pub fn callback_word(
    kind: CallbackKind,
    index: u32,
    ctr: u64,
    conduit: Conduit,
    first: u32,
    orig: u32,
) -> u32
    requires { IsIndex kind index }
    ensures { result ≡ callback_word_of kind index ctr conduit first orig }
{
    match kind {
        CallbackKind::Nops => NOP,
        CallbackKind::FinalCtr => ctr_word(index, ctr, first),
        CallbackKind::Conduit => match conduit {
            Conduit::None => orig,
            Conduit::Hvc => HVC,
            Conduit::Smc => SMC,
        },
        CallbackKind::Keep => orig,
    }
}

// One of the four words that load CTR_EL0, sixteen bits each, into the register of the first word.
fn ctr_word(index: u32, ctr: u64, first: u32) -> u32
    requires { index < 4 }
    ensures { result ≡ callback_word_of CallbackKind.FinalCtr index ctr Conduit.None first 0 }
{
    let begin = if index == 0 { MOVZ } else { MOVK };
    let bits = (ctr >> (16 * index) & 0xffff) as u32;
    begin + (index << 21) + (bits << 5) + (first & 0x1f)
}
