//! Pools of worked machines: their baseline, and the machine that limits each field.

ghost use Rattle.std.specs.Prelude.{◌≡◌, IfOk, length, vec_len};

use super::*;
use armcaps_baseline::baseline;
use armcaps_sanit::System;
use std::alloc::AllocError;

// The machines of one core each that have these words in a register, and 0 in the others.
fn machines(alloc: Global, reg: SysReg, words: &[u64]) -> Result<Vec<System>, AllocError>
    ensures { IfOk result (λ made. vec_len made ≡ length words.now) }
{
    words
        .iter()
        .map(|word| System::new(&core(reg, *word), &Overrides::none()))
        .collect(alloc)
}

// What is written of the baseline of such machines.
fn text_of(
    rt: &impl Abort,
    alloc: Global,
    reg: SysReg,
    words: &[u64],
) -> Result<String, AllocError> {
    let systems = machines(alloc, reg, words)?;
    assert!(rt; 0 < systems.len() && systems.len() <= 64);
    pool_report(alloc, &baseline(alloc, &systems)?)
}

// The second machine has no SHA1. The fields stand in the order of the manual.
const TWO: &str = "armcaps pool 1
machines 2
reg id_aa64pfr0_el1 0x0000000000000000
reg id_aa64pfr1_el1 0x0000000000000000
reg id_aa64zfr0_el1 0x0000000000000000
reg id_aa64smfr0_el1 0x0000000000000000
reg id_aa64dfr0_el1 0x0000000000000000
reg id_aa64isar0_el1 0x0000000000011020
reg id_aa64isar1_el1 0x0000000000000000
reg id_aa64isar2_el1 0x0000000000000000
reg id_aa64mmfr0_el1 0x0000000000000000
reg id_aa64mmfr1_el1 0x0000000000000000
reg id_aa64mmfr2_el1 0x0000000000000000
reg id_aa64mmfr3_el1 0x0000000000000000
reg ctr_el0 0x0000000000000000
reg dczid_el0 0x0000000000000000
limit id_aa64pfr0.el0 0
limit id_aa64pfr0.el1 0
limit id_aa64pfr0.el2 0
limit id_aa64pfr0.el3 0
limit id_aa64pfr0.fp 0
limit id_aa64pfr0.advsimd 0
limit id_aa64pfr0.gic 0
limit id_aa64pfr0.ras 0
limit id_aa64pfr0.sve 0
limit id_aa64pfr0.sel2 0
limit id_aa64pfr0.mpam 0
limit id_aa64pfr0.amu 0
limit id_aa64pfr0.dit 0
limit id_aa64pfr0.rme 0
limit id_aa64pfr0.csv2 0
limit id_aa64pfr0.csv3 0
limit id_aa64pfr1.bt 0
limit id_aa64pfr1.ssbs 0
limit id_aa64pfr1.mte 0
limit id_aa64pfr1.ras_frac 0
limit id_aa64pfr1.mpam_frac 0
limit id_aa64pfr1.sme 0
limit id_aa64zfr0.svever 0
limit id_aa64zfr0.aes 0
limit id_aa64zfr0.bitperm 0
limit id_aa64zfr0.bf16 0
limit id_aa64zfr0.sha3 0
limit id_aa64zfr0.sm4 0
limit id_aa64zfr0.i8mm 0
limit id_aa64zfr0.f32mm 0
limit id_aa64zfr0.f64mm 0
limit id_aa64smfr0.f32f32 0
limit id_aa64smfr0.b16f32 0
limit id_aa64smfr0.f16f32 0
limit id_aa64smfr0.i8i32 0
limit id_aa64smfr0.f64f64 0
limit id_aa64smfr0.i16i64 0
limit id_aa64smfr0.smever 0
limit id_aa64smfr0.fa64 0
limit id_aa64dfr0.debugver 0
limit id_aa64dfr0.pmuver 0
limit id_aa64dfr0.brps 0
limit id_aa64dfr0.wrps 0
limit id_aa64dfr0.ctx_cmps 0
limit id_aa64dfr0.pmsver 0
limit id_aa64dfr0.doublelock 0
limit id_aa64isar0.aes 0
limit id_aa64isar0.sha1 1
limit id_aa64isar0.sha2 0
limit id_aa64isar0.crc32 0
limit id_aa64isar0.atomic 0
limit id_aa64isar0.rdm 0
limit id_aa64isar0.sha3 0
limit id_aa64isar0.sm3 0
limit id_aa64isar0.sm4 0
limit id_aa64isar0.dp 0
limit id_aa64isar0.fhm 0
limit id_aa64isar0.ts 0
limit id_aa64isar0.tlb 0
limit id_aa64isar0.rndr 0
limit id_aa64isar1.dpb 0
limit id_aa64isar1.apa 0
limit id_aa64isar1.api 0
limit id_aa64isar1.jscvt 0
limit id_aa64isar1.fcma 0
limit id_aa64isar1.lrcpc 0
limit id_aa64isar1.gpa 0
limit id_aa64isar1.gpi 0
limit id_aa64isar1.frintts 0
limit id_aa64isar1.sb 0
limit id_aa64isar1.specres 0
limit id_aa64isar1.bf16 0
limit id_aa64isar1.dgh 0
limit id_aa64isar1.i8mm 0
limit id_aa64isar1.xs 0
limit id_aa64isar1.ls64 0
limit id_aa64isar2.wfxt 0
limit id_aa64isar2.rpres 0
limit id_aa64isar2.gpa3 0
limit id_aa64isar2.apa3 0
limit id_aa64isar2.mops 0
limit id_aa64mmfr0.parange 0
limit id_aa64mmfr0.asidbits 0
limit id_aa64mmfr0.bigend 0
limit id_aa64mmfr0.snsmem 0
limit id_aa64mmfr0.bigendel0 0
limit id_aa64mmfr0.tgran16 0
limit id_aa64mmfr0.tgran64 0
limit id_aa64mmfr0.tgran4 0
limit id_aa64mmfr0.fgt 0
limit id_aa64mmfr0.ecv 0
limit id_aa64mmfr1.hafdbs 0
limit id_aa64mmfr1.vmidbits 0
limit id_aa64mmfr1.vh 0
limit id_aa64mmfr1.hpds 0
limit id_aa64mmfr1.lo 0
limit id_aa64mmfr1.pan 0
limit id_aa64mmfr1.specsei 0
limit id_aa64mmfr1.xnx 0
limit id_aa64mmfr1.hcx 0
limit id_aa64mmfr1.afp 0
limit id_aa64mmfr1.tidcp1 0
limit id_aa64mmfr2.cnp 0
limit id_aa64mmfr2.uao 0
limit id_aa64mmfr2.iesb 0
limit id_aa64mmfr2.varange 0
limit id_aa64mmfr2.at 0
limit id_aa64mmfr2.fwb 0
limit id_aa64mmfr2.ttl 0
limit id_aa64mmfr2.evt 0
limit id_aa64mmfr2.e0pd 0
limit id_aa64mmfr3.tcrx 0
limit id_aa64mmfr3.s1pie 0
limit ctr.iminline 0
limit ctr.l1ip 0
limit ctr.dminline 0
limit ctr.erg 0
limit ctr.cwg 0
limit ctr.idc 0
limit ctr.dic 0
limit ctr.res1 0
limit dczid.bs 0
limit dczid.dzp 0
end
";

#[test]
fn whole_text(rt: HostRuntime) -> Result<(), Fail> {
    let text = text_of(
        &rt,
        rt.alloc(),
        SysReg::IdAa64Isar0El1,
        &[0x1_1120, 0x1_1020],
    )?;
    assert_eq!(rt; text.as_str(), TWO);
    Ok(())
}

// A granule of 0 may be any, and so counts as the largest.
#[test]
fn granules(rt: HostRuntime) -> Result<(), Fail> {
    let words = [0x8544_8004, 0x8444_8004, 0x8044_8004];
    let text = text_of(&rt, rt.alloc(), SysReg::CtrEl0, &words)?;
    tells(
        &rt,
        &text,
        &[
            "machines 3",
            "reg ctr_el0 0x0000000080448004",
            "limit ctr.cwg 2",
            "limit ctr.erg 0",
        ],
    );
    let text = text_of(&rt, rt.alloc(), SysReg::CtrEl0, &words[..2])?;
    tells(
        &rt,
        &text,
        &[
            "machines 2",
            "reg ctr_el0 0x0000000085448004",
            "limit ctr.cwg 0",
        ],
    );
    Ok(())
}
