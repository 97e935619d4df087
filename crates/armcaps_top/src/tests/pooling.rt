//! The best register set that each of several machines accepts.

use super::{ended, row_holds, run_from, run_on, sink};
use armcaps_io::{MemSink, SureSource};
use std::test::Fail;

/// The texts of machines, one after the other, and what `pool` answers: lines of its text, or why there is none.
const POOLS: &str = "== one machine
armcaps 1
core 0
id_aa64isar0_el1 0x11120
boot 0
finalise
end
$ with pool
armcaps pool 1
machines 1
reg id_aa64isar0_el1 0x0000000000011120
limit id_aa64isar0.aes 0
limit id_aa64isar0.sha1 0
end
!machines 2
== two machines, of which the second lacks an instruction
armcaps 1
core 0
id_aa64isar0_el1 0x11120
boot 0
finalise
end
armcaps 1
core 0
id_aa64isar0_el1 0x11020
boot 0
finalise
end
$ with pool
armcaps pool 1
machines 2
reg id_aa64isar0_el1 0x0000000000011020
limit id_aa64isar0.aes 0
limit id_aa64isar0.sha1 1
end
== a size that is told of, and then none
armcaps 1
core 0
ctr_el0 0x85448004
boot 0
finalise
end
armcaps 1
core 0
ctr_el0 0x84448004
boot 0
finalise
end
armcaps 1
core 0
ctr_el0 0x80448004
boot 0
finalise
end
$ with pool
machines 3
reg ctr_el0 0x0000000080448004
limit ctr.erg 0
limit ctr.cwg 2
== a size that the first has
armcaps 1
core 0
ctr_el0 0x85448004
boot 0
finalise
end
armcaps 1
core 0
ctr_el0 0x84448004
boot 0
finalise
end
$ with pool
machines 2
reg ctr_el0 0x0000000085448004
limit ctr.cwg 0
== both formats, a machine of many cores, and one that no step parks
armcaps 2
core 0
id_aa64pfr0_el1 0x100000000
id_aa64isar0_el1 0x21120
sve_vl 0x3
core 1
id_aa64pfr0_el1 0x100000000
id_aa64isar0_el1 0x11120
sve_vl 0x3
boot 0
online 1
finalise
end
armcaps 1
core 0
id_aa64pfr0_el1 0x100000000
id_aa64isar0_el1 0x11120
boot 0
finalise
image 0
$ with pool
machines 2
reg id_aa64pfr0_el1 0x0000000100000000
reg id_aa64isar0_el1 0x0000000000011120
limit id_aa64isar0.crc32 0
== an exact field that machines have otherwise, one that the last has otherwise, one that is safe in the first
armcaps 1
core 0
id_aa64isar1_el1 0x10
id_aa64isar2_el1 0x1000
ctr_el0 0x84448004
boot 0
finalise
end
armcaps 1
core 0
id_aa64isar1_el1 0x20
id_aa64isar2_el1 0x1000
ctr_el0 0x8444c004
boot 0
finalise
end
armcaps 1
core 0
id_aa64isar1_el1 0x10
id_aa64isar2_el1 0x2000
ctr_el0 0x84448004
boot 0
finalise
end
$ with pool
reg id_aa64isar1_el1 0x0000000000000000
reg id_aa64isar2_el1 0x0000000000000000
limit id_aa64isar1.apa 1
limit id_aa64isar2.apa3 2
limit ctr.l1ip 0
== no text
$ 3 pool
armcaps: machine 0: line 1: kind 2 unfinished
== a text and one more byte
armcaps 1
core 0
id_aa64isar0_el1 0x11120
boot 0
finalise
end
x$ 3 pool
armcaps: machine 1: line 1: kind 2 unfinished
== a comment between two texts
armcaps 1
core 0
boot 0
finalise
end
# a second machine
armcaps 1
core 0
boot 0
finalise
end
$ 3 pool
armcaps: machine 1: line 1: kind 1 header
== a kind in the second text, and one in the third
armcaps 1
core 0
boot 0
finalise
end
armcaps 1
core 0
core 1
boot 0
store 1
finalise
end
armcaps 3
$ 3 pool
armcaps: machine 1: line 5: kind 13 turn
== an image in the second text
armcaps 1
core 0
boot 0
finalise
end
armcaps 1
core 0
boot 0
finalise
image 1
x$ 3 pool
armcaps: machine 1: image
== a kind in a text that has an image
armcaps 1
core 0
boot 0
store 0
finalise
image 1
x$ 3 pool
armcaps: machine 0: line 4: kind 12 boot-step
== a machine that a step stops, before one that is refused
armcaps 1
core 0
id_aa64mmfr0_el1 0x20
core 1
boot 0
online 1
finalise
end
armcaps 1
core 1
$ 3 pool
armcaps: machine 1: line 2: kind 10 core-number
== a second machine that a step stops, and a third
armcaps 1
core 0
boot 0
finalise
end
armcaps 1
core 0
id_aa64mmfr0_el1 0x20
core 1
boot 0
online 1
finalise
end
armcaps 1
core 0
id_aa64pfr1_el1 0x200
core 1
boot 0
online 1
finalise
end
$ 7 pool
armcaps: machine 1: panic: core 1: asid
";

/// The answers on texts that stand one after the other.
#[test]
fn pools(rt: HostRuntime) -> Result<(), Fail> {
    for row in POOLS.split("== ").skip(1) {
        row_holds(&rt, rt.alloc(), row)?;
    }
    Ok(())
}

const PLAIN: &str = "armcaps 1\ncore 0\nboot 0\nfinalise\nend\n";

const STOPPED: &str =
    "armcaps 1\ncore 0\nid_aa64mmfr0_el1 0x20\ncore 1\nboot 0\nonline 1\nfinalise\nend\n";

/// The machines that are left: all, those up to the first that a step stops, or none.
#[test]
fn machines_left(rt: HostRuntime) -> Result<(), Fail> {
    let alloc = rt.alloc();
    for (input, status, left) in [
        (format!(in alloc; "{PLAIN}{PLAIN}{PLAIN}")?, 0_u8, 3_usize),
        (format!(in alloc; "{PLAIN}{STOPPED}{PLAIN}")?, 7, 2),
        (format!(in alloc; "{STOPPED}{STOPPED}")?, 7, 1),
        (format!(in alloc; "{PLAIN}{STOPPED}{PLAIN}x")?, 3, 0),
    ] {
        let ran = run_on(alloc, "pool", input.as_bytes())?;
        assert_eq!(rt; ran.status, status, "{input}");
        assert_eq!(rt; ran.machines.len(), left, "{input}");
    }
    Ok(())
}

/// An output that is cut off holds a first part of the text, and all machines are left.
#[test]
fn pool_cut_off(rt: HostRuntime) -> Result<(), Fail> {
    let alloc = rt.alloc();
    let texts = format!(in alloc; "{PLAIN}{PLAIN}")?;
    let mut input = SureSource::new(texts.as_bytes().to_vec(alloc)?, 4093);
    let out = MemSink::new(alloc, 9, 64, Vec::new(alloc))?;
    let ran = run_from(alloc, "pool", &mut input, out, sink(alloc)?)?;
    ended(
        &rt,
        "cut off",
        &ran,
        5,
        b"armcaps p",
        "armcaps: write fault\n",
    );
    assert_eq!(rt; ran.machines.len(), 2);
    Ok(())
}
