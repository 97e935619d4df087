//! Worked machines and texts, with what commands answer. The answers come from the rules, by hand or by an independent
//! transcription of them.
//!
//! A row begins at `== ` with its name. Then comes the input as it stands, and then each answer, which begins at `$ `:
//!
//! - `$ STATUS WORDS`: all that is written to the output, or to the error stream where STATUS is not 0;
//! - `$ with WORDS`: lines that stand in the output in this order, and after `!` the beginning of lines that do not;
//! - `$ like WORDS`: another input, on which the words give the same output.
//!
//! Between several commands with one answer stands `, `.

/// Machines that are brought up.
pub const MACHINES: &str = "== one core
armcaps 1
core 0
id_aa64isar0_el1 0x11120
boot 0
finalise
end
$ with report
core 0 boot
reg id_aa64isar0_el1 0x0000000000011120
user id_aa64pfr0_el1 0x0000000000000011
user id_aa64mmfr0_el1 0x00000000ff000000
hwcap 0x00000000000008fb
$ 0 trace
armcaps trace 1
step 1 finalise done
end
$ 0 mrs 0 0xd5380605
x5 0x0000000000011120
$ 0 mrs 000000000 0xD53800A0
x0 0x0000000080000000
$ 0 mrs 0 0xd538071f
xzr 0x00000000ff000000
$ 9 mrs 0 0xd5380100
armcaps: mrs: word 0xd5380100 undefined
$ 9 mrs 0 0x1f
armcaps: mrs: word 0x0000001f undefined
$ 9 mrs 7 0xd5380600
armcaps: mrs: core 7 not admitted
$ 9 mrs 7 0x1f
armcaps: mrs: core 7 not admitted
== one core in format 2
armcaps 2
core 0
id_aa64isar0_el1 0x11120
boot 0
finalise
end
$ like report
armcaps 1
core 0
id_aa64isar0_el1 0x11120
boot 0
finalise
end
== the boot core alone has the atomics
armcaps 1
core 0
id_aa64isar0_el1 0x100010211120
core 1
id_aa64isar0_el1 0x11120
boot 0
online 1
finalise
end
$ with report
core 1 early
reg id_aa64isar0_el1 0x0000000000011120
varies id_aa64isar0_el1
!varies id_aa64p
!cap 7 
hwcap 0x00000000000008fb
== the other core alone has the atomics
armcaps 1
core 0
id_aa64isar0_el1 0x11120
core 1
id_aa64isar0_el1 0x100010211120
boot 0
online 1
finalise
end
$ with report
core 1 early
reg id_aa64isar0_el1 0x0000000000011120
varies id_aa64isar0_el1
!varies id_aa64p
!cap 7 
hwcap 0x00000000000008fb
== a core that never comes
armcaps 1
core 0
id_aa64isar0_el1 0x100010211120
core 1
id_aa64isar0_el1 0x11120
boot 0
finalise
end
$ with report
core 0 boot
core 1 absent
reg id_aa64isar0_el1 0x0000100010211120
!varies 
== floating point is signed
armcaps 1
core 0
id_aa64pfr0_el1 0x0
core 1
id_aa64pfr0_el1 0xf0000
boot 0
online 1
finalise
end
$ with report
reg id_aa64pfr0_el1 0x00000000000f0000
!cap 41 
hwcap 0x0000000000000802
flags asimd cpuid
== a write-back granule of 0 wins over one of 4
armcaps 1
core 0
ctr_el0 0x84448004
core 1
ctr_el0 0x80448004
boot 0
online 1
finalise
end
$ with report
reg ctr_el0 0x0000000080448004
cap 42 MISMATCHED_CACHE_TYPE
== a greater write-back granule wins
armcaps 1
core 0
ctr_el0 0x84448004
core 1
ctr_el0 0x85448004
boot 0
online 1
finalise
end
$ with report
reg ctr_el0 0x0000000085448004
cap 42 MISMATCHED_CACHE_TYPE
== the same cache type twice
armcaps 1
core 0
ctr_el0 0x8444c004
core 1
ctr_el0 0x8444c004
boot 0
online 1
finalise
end
$ with report
reg ctr_el0 0x000000008444c004
!cap 42 
== cache policies that differ
armcaps 1
core 0
ctr_el0 0x8444c004
core 1
ctr_el0 0x84444004
core 2
ctr_el0 0x8444c004
boot 0
online 1
online 2
finalise
end
$ with report
reg ctr_el0 0x0000000084448004
!varies 
!cap 42 
== without SVE
armcaps 1
core 0
id_aa64pfr0_el1 0x100000000
id_aa64pfr1_el1 0x1000000
boot 0
cmdline quiet arm64.nosve
finalise
end
$ 0 report
armcaps report 1
core 0 boot
reg id_aa64pfr0_el1 0x0000000000000000
reg id_aa64pfr1_el1 0x0000000000000000
reg id_aa64zfr0_el1 0x0000000000000000
reg id_aa64smfr0_el1 0x0000000000000000
reg id_aa64dfr0_el1 0x0000000000000000
reg id_aa64isar0_el1 0x0000000000000000
reg id_aa64isar1_el1 0x0000000000000000
reg id_aa64isar2_el1 0x0000000000000000
reg id_aa64mmfr0_el1 0x0000000000000000
reg id_aa64mmfr1_el1 0x0000000000000000
reg id_aa64mmfr2_el1 0x0000000000000000
reg id_aa64mmfr3_el1 0x0000000000000000
reg ctr_el0 0x0000000000000000
reg dczid_el0 0x0000000000000000
user id_aa64pfr0_el1 0x0000000000000011
user id_aa64pfr1_el1 0x0000000000000000
user id_aa64zfr0_el1 0x0000000000000000
user id_aa64smfr0_el1 0x0000000000000000
user id_aa64dfr0_el1 0x0000000000000006
user id_aa64isar0_el1 0x0000000000000000
user id_aa64isar1_el1 0x0000000000000000
user id_aa64isar2_el1 0x0000000000000000
user id_aa64mmfr0_el1 0x00000000ff000000
user id_aa64mmfr1_el1 0x0000000000000000
user id_aa64mmfr2_el1 0x0000000000000000
user id_aa64mmfr3_el1 0x0000000000000000
user ctr_el0 0x0000000000000000
user dczid_el0 0x0000000000000000
note id_aa64pfr0.sve forced
note id_aa64pfr1.sme forced
note id_aa64zfr0.svever already
note id_aa64zfr0.aes already
note id_aa64zfr0.bitperm already
note id_aa64zfr0.bf16 already
note id_aa64zfr0.sha3 already
note id_aa64zfr0.sm4 already
note id_aa64zfr0.i8mm already
note id_aa64zfr0.f32mm already
note id_aa64zfr0.f64mm already
note id_aa64smfr0.f32f32 already
note id_aa64smfr0.b16f32 already
note id_aa64smfr0.f16f32 already
note id_aa64smfr0.i8i32 already
note id_aa64smfr0.f64f64 already
note id_aa64smfr0.i16i64 already
note id_aa64smfr0.smever already
note id_aa64smfr0.fa64 already
cap 0 ALWAYS_BOOT
cap 1 ALWAYS_SYSTEM
cap 41 HAS_FPSIMD
hwcap 0x0000000000000803
hwcap2 0x0000000000000000
flags fp asimd cpuid
end
== an override that the boot core does not give way to
armcaps 1
core 0
id_aa64pfr0_el1 0x100000000
boot 0
cmdline id_aa64pfr0.sve=2
finalise
end
$ with report
reg id_aa64pfr0_el1 0x0000000100000000
note id_aa64pfr0.sve ignored
cap 36 SVE
== a late core without what an override left
armcaps 1
core 0
id_aa64pfr1_el1 0x20
core 1
boot 0
cmdline id_aa64pfr1.ssbs=1
finalise
online 1
end
$ with report
core 1 parked cap 40 SSBS
reg id_aa64pfr1_el1 0x0000000000000010
note id_aa64pfr1.ssbs forced
cap 40 SSBS
hwcap 0x0000000000000803
== an override is cut to its width
armcaps 1
core 0
id_aa64isar0_el1 0x11120
boot 0
cmdline id_aa64isar0.aes=0x11
finalise
end
$ with report
reg id_aa64isar0_el1 0x0000000000011110
note id_aa64isar0.aes forced
== of two overrides the last counts
armcaps 1
core 0
id_aa64isar0_el1 0x11120
boot 0
cmdline id_aa64isar0.aes=1 id_aa64isar0.aes=2
finalise
end
$ with report
reg id_aa64isar0_el1 0x0000000000011120
note id_aa64isar0.aes already
== words that are no overrides
armcaps 1
core 0
id_aa64isar0_el1 0x11120
boot 0
cmdline id_aa64isar0.aes= -- arm64.nosve
finalise
end
$ with report
!note 
== a late core without the atomics
armcaps 1
core 0
id_aa64isar0_el1 0x10211120
core 1
id_aa64isar0_el1 0x11120
boot 0
finalise
online 1
end
$ with report
core 1 parked cap 7 HAS_LSE_ATOMICS
reg id_aa64isar0_el1 0x0000000010211120
$ 9 mrs 1 0xd5380600
armcaps: mrs: core 1 not admitted
$ 9 mrs 1 0x1f
armcaps: mrs: core 1 not admitted
== errata of a core
armcaps 1
core 0
midr_el1 0x410fd034
boot 0
finalise
end
$ with report
cap 41 HAS_FPSIMD
cap 43 WORKAROUND_843419
cap 44 WORKAROUND_845719
hwcap 0x0000000000000803
$ 0 mrs 0 0xd5380000
x0 0x00000000410fd034
$ 0 mrs 0 0xd53800c2
x2 0x0000000000000000
$ 9 mrs 0 0xd5380020
armcaps: mrs: word 0xd5380020 undefined
== stores that are not bypassed
armcaps 1
core 0
id_aa64pfr1_el1 0x20
boot 0
finalise
end
$ 0 mrs 0 0xd5380420
x0 0x0000000000000020
== a late core with an erratum that the boot core has mended
armcaps 1
core 0
midr_el1 0x410fd034
revidr_el1 0x100
core 1
midr_el1 0x410fd034
boot 0
finalise
online 1
end
$ with report
core 1 parked cap 43 WORKAROUND_843419
!cap 43 
cap 44 WORKAROUND_845719
== two cores that come interleaved
armcaps 1
core 0
ctr_el0 0x84448004
core 1
ctr_el0 0x84448004
core 2
ctr_el0 0x84438004
boot 0
check 1
check 2
local 1
local 2
store 2
store 1
finalise
end
$ 0 report
armcaps report 1
core 0 boot
core 1 early
core 2 early
reg id_aa64pfr0_el1 0x0000000000000000
reg id_aa64pfr1_el1 0x0000000000000000
reg id_aa64zfr0_el1 0x0000000000000000
reg id_aa64smfr0_el1 0x0000000000000000
reg id_aa64dfr0_el1 0x0000000000000000
reg id_aa64isar0_el1 0x0000000000000000
reg id_aa64isar1_el1 0x0000000000000000
reg id_aa64isar2_el1 0x0000000000000000
reg id_aa64mmfr0_el1 0x0000000000000000
reg id_aa64mmfr1_el1 0x0000000000000000
reg id_aa64mmfr2_el1 0x0000000000000000
reg id_aa64mmfr3_el1 0x0000000000000000
reg ctr_el0 0x0000000084438004
reg dczid_el0 0x0000000000000000
user id_aa64pfr0_el1 0x0000000000000011
user id_aa64pfr1_el1 0x0000000000000000
user id_aa64zfr0_el1 0x0000000000000000
user id_aa64smfr0_el1 0x0000000000000000
user id_aa64dfr0_el1 0x0000000000000006
user id_aa64isar0_el1 0x0000000000000000
user id_aa64isar1_el1 0x0000000000000000
user id_aa64isar2_el1 0x0000000000000000
user id_aa64mmfr0_el1 0x00000000ff000000
user id_aa64mmfr1_el1 0x0000000000000000
user id_aa64mmfr2_el1 0x0000000000000000
user id_aa64mmfr3_el1 0x0000000000000000
user ctr_el0 0x0000000084438004
user dczid_el0 0x0000000000000000
varies ctr_el0
cap 0 ALWAYS_BOOT
cap 1 ALWAYS_SYSTEM
cap 41 HAS_FPSIMD
cap 42 MISMATCHED_CACHE_TYPE
hwcap 0x0000000000000803
hwcap2 0x0000000000000000
flags fp asimd cpuid
end
$ 0 trace
armcaps trace 1
step 1 check 1 done
step 2 check 2 done
step 3 local 1 done
step 4 local 2 done
step 5 store 2 done
reg ctr_el0 0x0000000084438004
step 6 store 1 done
step 7 finalise done
end
$ like report
armcaps 1
core 0
ctr_el0 0x84448004
core 1
ctr_el0 0x84448004
core 2
ctr_el0 0x84438004
boot 0
online 1
online 2
finalise
end
== the same cores one after the other
armcaps 1
core 0
ctr_el0 0x84448004
core 1
ctr_el0 0x84448004
core 2
ctr_el0 0x84438004
boot 0
online 1
online 2
finalise
end
$ 0 trace
armcaps trace 1
step 1 check 1 done
step 2 local 1 done
step 3 store 1 done
step 4 check 2 done
step 5 local 2 done
step 6 store 2 done
reg ctr_el0 0x0000000084438004
step 7 finalise done
end
== a late core of another cache type
armcaps 1
core 0
ctr_el0 0x84448004
core 1
ctr_el0 0x84438004
boot 0
finalise
online 1
end
$ with report
core 1 parked cap 42 MISMATCHED_CACHE_TYPE
== a late core of another cache policy
armcaps 1
core 0
ctr_el0 0x8444c004
core 1
ctr_el0 0x84448004
boot 0
finalise
online 1
end
$ with report
core 1 late
reg ctr_el0 0x0000000084448004
!varies 
== a late core without an advertised feature
armcaps 1
core 0
id_aa64isar0_el1 0x11120
core 1
id_aa64isar0_el1 0x11020
boot 0
finalise
online 1
end
$ with report
core 1 parked hwcap sha1
== an early core that is parked
armcaps 1
core 0
id_aa64pfr1_el1 0x300
core 1
id_aa64pfr1_el1 0x200
boot 0
online 1
finalise
end
$ with report
core 1 parked cap 6 MTE_ASYMM
reg id_aa64pfr1_el1 0x0000000000000300
hwcap2 0x0000000000440000
== pointer authentication of two kinds
armcaps 1
core 0
id_aa64isar1_el1 0x10
core 1
id_aa64isar1_el1 0x100
boot 0
online 1
finalise
end
$ with report
core 1 parked cap 2 HAS_ADDRESS_AUTH_ARCH_QARMA5
== half precision
armcaps 1
core 0
id_aa64pfr0_el1 0x110000
boot 0
finalise
end
$ with report
hwcap 0x0000000000000e03
flags fp asimd fphp asimdhp cpuid
== generic pointer authentication
armcaps 1
core 0
id_aa64isar1_el1 0x11000010
boot 0
finalise
end
$ with report
hwcap 0x00000000c0000803
flags fp asimd cpuid paca pacg
== late cores that come interleaved
armcaps 1
core 0
id_aa64isar0_el1 0x10211120
core 1
id_aa64isar0_el1 0x11120
core 2
id_aa64isar0_el1 0x10211120
boot 0
finalise
check 1
check 2
local 2
local 1
store 1
store 2
end
$ with report
core 1 parked cap 7 HAS_LSE_ATOMICS
core 2 late
reg id_aa64isar0_el1 0x0000000010211120
$ 0 trace
armcaps trace 1
step 1 finalise done
step 2 check 1 done
step 3 check 2 done
step 4 local 2 done
step 5 local 1 parked cap 7 HAS_LSE_ATOMICS
step 6 store 1 skipped
step 7 store 2 done
end
$ like report
armcaps 1
core 0
id_aa64isar0_el1 0x10211120
core 1
id_aa64isar0_el1 0x11120
core 2
id_aa64isar0_el1 0x10211120
boot 0
finalise
online 2
online 1
end
== a core that went
armcaps 2
core 0
id_aa64isar0_el1 0x10211120
core 1
id_aa64isar0_el1 0x10211120
boot 0
online 1
finalise
offline 1
end
$ with report
core 1 early offline
reg id_aa64isar0_el1 0x0000000010211120
$ 9 mrs 1 0xd5380600
armcaps: mrs: core 1 not admitted
== a core that came back
armcaps 2
core 0
id_aa64isar0_el1 0x10211120
core 1
id_aa64isar0_el1 0x10211120
boot 0
online 1
finalise
offline 1
check 1
local 1
store 1
end
$ with report
core 1 early
$ 0 mrs 1 0xd5380600
x0 0x0000000010211120
== a parked core that comes again
armcaps 2
core 0
id_aa64isar0_el1 0x10211120
core 1
id_aa64isar0_el1 0x11120
boot 0
finalise
online 1
offline 1
online 1
end
$ 0 trace
armcaps trace 1
step 1 finalise done
step 2 check 1 done
step 3 local 1 parked cap 7 HAS_LSE_ATOMICS
step 4 store 1 skipped
step 5 offline 1 skipped
step 6 check 1 skipped
step 7 local 1 skipped
step 8 store 1 skipped
end
$ like report
armcaps 1
core 0
id_aa64isar0_el1 0x10211120
core 1
id_aa64isar0_el1 0x11120
boot 0
finalise
online 1
end
== vector lengths
armcaps 2
core 0
id_aa64pfr0_el1 0x100000000
sve_vl 0x3
core 1
id_aa64pfr0_el1 0x100000000
sve_vl 0x7
core 2
id_aa64pfr0_el1 0x100000000
sve_vl 0x1
core 3
id_aa64pfr0_el1 0x100000000
sve_vl 0xb
boot 0
online 1
finalise
online 2
online 3
end
$ 0 report
armcaps report 1
core 0 boot
core 1 early
core 2 parked vl 256
core 3 late
reg id_aa64pfr0_el1 0x0000000100000000
reg id_aa64pfr1_el1 0x0000000000000000
reg id_aa64zfr0_el1 0x0000000000000000
reg id_aa64smfr0_el1 0x0000000000000000
reg id_aa64dfr0_el1 0x0000000000000000
reg id_aa64isar0_el1 0x0000000000000000
reg id_aa64isar1_el1 0x0000000000000000
reg id_aa64isar2_el1 0x0000000000000000
reg id_aa64mmfr0_el1 0x0000000000000000
reg id_aa64mmfr1_el1 0x0000000000000000
reg id_aa64mmfr2_el1 0x0000000000000000
reg id_aa64mmfr3_el1 0x0000000000000000
reg ctr_el0 0x0000000000000000
reg dczid_el0 0x0000000000000000
user id_aa64pfr0_el1 0x0000000100000011
user id_aa64pfr1_el1 0x0000000000000000
user id_aa64zfr0_el1 0x0000000000000000
user id_aa64smfr0_el1 0x0000000000000000
user id_aa64dfr0_el1 0x0000000000000006
user id_aa64isar0_el1 0x0000000000000000
user id_aa64isar1_el1 0x0000000000000000
user id_aa64isar2_el1 0x0000000000000000
user id_aa64mmfr0_el1 0x00000000ff000000
user id_aa64mmfr1_el1 0x0000000000000000
user id_aa64mmfr2_el1 0x0000000000000000
user id_aa64mmfr3_el1 0x0000000000000000
user ctr_el0 0x0000000000000000
user dczid_el0 0x0000000000000000
cap 0 ALWAYS_BOOT
cap 1 ALWAYS_SYSTEM
cap 36 SVE
cap 41 HAS_FPSIMD
hwcap 0x0000000000400803
hwcap2 0x0000000000000000
flags fp asimd cpuid sve
vl 128
vl 256
end
== vector lengths without SVE
armcaps 2
core 0
id_aa64pfr0_el1 0x100000000
sve_vl 0x3
core 1
id_aa64pfr0_el1 0x100000000
sve_vl 0x7
core 2
id_aa64pfr0_el1 0x100000000
sve_vl 0x1
core 3
id_aa64pfr0_el1 0x100000000
sve_vl 0xb
boot 0
cmdline arm64.nosve
online 1
finalise
online 2
online 3
end
$ with report
core 2 late
core 3 late
!vl 
== SVE without vector lengths
armcaps 2
core 0
id_aa64pfr0_el1 0x100000000
core 1
id_aa64pfr0_el1 0x100000000
core 2
id_aa64pfr0_el1 0x100000000
core 3
id_aa64pfr0_el1 0x100000000
boot 0
online 1
finalise
online 2
online 3
end
$ with report
core 2 late
core 3 late
!vl 
== four small cores and four big ones
armcaps 1
core 0
id_aa64pfr0_el1 0x2222
id_aa64dfr0_el1 0x10305106
id_aa64isar0_el1 0x11120
id_aa64mmfr0_el1 0x1122
ctr_el0 0x84448004
dczid_el0 0x4
midr_el1 0x410fd034
core 1
id_aa64pfr0_el1 0x2222
id_aa64dfr0_el1 0x10305106
id_aa64isar0_el1 0x11120
id_aa64mmfr0_el1 0x1122
ctr_el0 0x84448004
dczid_el0 0x4
midr_el1 0x410fd034
core 2
id_aa64pfr0_el1 0x2222
id_aa64dfr0_el1 0x10305106
id_aa64isar0_el1 0x11120
id_aa64mmfr0_el1 0x1122
ctr_el0 0x84448004
dczid_el0 0x4
midr_el1 0x410fd034
core 3
id_aa64pfr0_el1 0x2222
id_aa64dfr0_el1 0x10305106
id_aa64isar0_el1 0x11120
id_aa64mmfr0_el1 0x1122
ctr_el0 0x84448004
dczid_el0 0x4
midr_el1 0x410fd034
core 4
id_aa64pfr0_el1 0x2222
id_aa64dfr0_el1 0x10305106
id_aa64isar0_el1 0x11120
id_aa64mmfr0_el1 0x1122
ctr_el0 0x84448004
dczid_el0 0x4
midr_el1 0x410fd092
core 5
id_aa64pfr0_el1 0x2222
id_aa64dfr0_el1 0x10305106
id_aa64isar0_el1 0x11120
id_aa64mmfr0_el1 0x1122
ctr_el0 0x84448004
dczid_el0 0x4
midr_el1 0x410fd092
core 6
id_aa64pfr0_el1 0x2222
id_aa64dfr0_el1 0x10305106
id_aa64isar0_el1 0x11120
id_aa64mmfr0_el1 0x1122
ctr_el0 0x84448004
dczid_el0 0x4
midr_el1 0x410fd092
core 7
id_aa64pfr0_el1 0x2222
id_aa64dfr0_el1 0x10305106
id_aa64isar0_el1 0x11120
id_aa64mmfr0_el1 0x1122
ctr_el0 0x84448004
dczid_el0 0x4
midr_el1 0x410fd092
boot 0
cmdline console=ttyAMA0 root=/dev/vda2 rw quiet
online 1
online 2
online 3
online 4
online 5
online 6
online 7
finalise
end
$ 0 report
armcaps report 1
core 0 boot
core 1 early
core 2 early
core 3 early
core 4 early
core 5 early
core 6 early
core 7 early
reg id_aa64pfr0_el1 0x0000000000002222
reg id_aa64pfr1_el1 0x0000000000000000
reg id_aa64zfr0_el1 0x0000000000000000
reg id_aa64smfr0_el1 0x0000000000000000
reg id_aa64dfr0_el1 0x0000000010305106
reg id_aa64isar0_el1 0x0000000000011120
reg id_aa64isar1_el1 0x0000000000000000
reg id_aa64isar2_el1 0x0000000000000000
reg id_aa64mmfr0_el1 0x0000000000001122
reg id_aa64mmfr1_el1 0x0000000000000000
reg id_aa64mmfr2_el1 0x0000000000000000
reg id_aa64mmfr3_el1 0x0000000000000000
reg ctr_el0 0x0000000084448004
reg dczid_el0 0x0000000000000004
user id_aa64pfr0_el1 0x0000000000000011
user id_aa64pfr1_el1 0x0000000000000000
user id_aa64zfr0_el1 0x0000000000000000
user id_aa64smfr0_el1 0x0000000000000000
user id_aa64dfr0_el1 0x0000000000000006
user id_aa64isar0_el1 0x0000000000011120
user id_aa64isar1_el1 0x0000000000000000
user id_aa64isar2_el1 0x0000000000000000
user id_aa64mmfr0_el1 0x00000000ff000000
user id_aa64mmfr1_el1 0x0000000000000000
user id_aa64mmfr2_el1 0x0000000000000000
user id_aa64mmfr3_el1 0x0000000000000000
user ctr_el0 0x0000000084448004
user dczid_el0 0x0000000000000004
cap 0 ALWAYS_BOOT
cap 1 ALWAYS_SYSTEM
cap 8 HAS_CRC32
cap 41 HAS_FPSIMD
cap 43 WORKAROUND_843419
cap 44 WORKAROUND_845719
cap 48 WORKAROUND_858921
hwcap 0x00000000000008fb
hwcap2 0x0000000000000000
flags fp asimd aes pmull sha1 sha2 crc32 cpuid
end
";
