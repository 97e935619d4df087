//! The lines on the error stream, status by status. Rows as those of worked machines (`rows`).

/// Inputs and words of which nothing is written: a line of each status but 4, 5 and 6, which say that a stream failed
/// (`streams`) or that there was no memory; and of 3 and 7 many.
pub const ERROR_LINES: &str = "== status 2: words that are no form
$ 2 banana
armcaps: usage: armcaps report | patch | mrs CORE WORD | demo SEED CORES | trace | elf \
| jump OFFSET COUNT | pool | audit
== status 8: an entry of the table is refused
armcaps 1
core 0
boot 0
finalise
table 0 1
image 13
AAAAAAAAAAAA
$ 8 patch, jump 0 0
armcaps: patch: entry 0: kind 1 unknown-cap
== status 9: nothing is read
armcaps 1
core 0
boot 0
finalise
end
$ 9 mrs 0 0x1f
armcaps: mrs: word 0x0000001f undefined
== statuses 10 and 11: no ELF file, and a table of jump labels outside of the image
armcaps 1
core 0
boot 0
finalise
image 1
A$ 10 elf
armcaps: elf: kind 1 header
$ 11 jump 0 1
armcaps: jump: table outside
== status 12: another second image
armcaps 1
core 0
boot 0
finalise
image 1
AB$ 12 audit
armcaps: audit: byte 0
== status 3: no text
$ 3 report, patch, mrs 9 0x0, trace
armcaps: line 1: kind 2 unfinished
== a line that ends with a carriage return
armcaps 1\r
$ 3 report, patch, mrs 9 0x0, trace
armcaps: line 1: kind 1 header
== no finalise
armcaps 1
core 0
id_aa64isar0_el1 0x11120
boot 0
end
$ 3 report, patch, mrs 9 0x0, trace
armcaps: line 5: kind 15 incomplete
== a step of the boot core
armcaps 1
core 0
id_aa64isar0_el1 0x11120
boot 0
online 0
finalise
end
$ 3 report, patch, mrs 9 0x0, trace
armcaps: line 5: kind 12 boot-step
== a register twice
armcaps 1
core 0
id_aa64isar0_el1 0x11120
id_aa64isar0_el1 0x11120
boot 0
finalise
end
$ 3 report, patch, mrs 9 0x0, trace
armcaps: line 4: kind 9 twice
== a core number that is left out
armcaps 1
core 0
core 2
$ 3 report, patch, mrs 9 0x0, trace
armcaps: line 3: kind 10 core-number
== a boot core that is none
armcaps 1
core 0
boot 1
$ 3 report, patch, mrs 9 0x0, trace
armcaps: line 3: kind 10 core-number
== a boot core whose number is too large
armcaps 1
core 0
boot 4294967296
$ 3 report, patch, mrs 9 0x0, trace
armcaps: line 3: kind 7 number
== a boot core without a number
armcaps 1
core 0
boot
$ 3 report, patch, mrs 9 0x0, trace
armcaps: line 3: kind 6 tokens
== an unknown line
armcaps 1
#








banana
$ 3 report, patch, mrs 9 0x0, trace
armcaps: line 11: kind 4 unknown-line
== a step before its turn
armcaps 1
core 0
core 1
boot 0
local 1
finalise
end
$ 3 report, patch, mrs 9 0x0, trace
armcaps: line 5: kind 13 turn
== finalise while a core is coming
armcaps 1
core 0
core 1
boot 0
check 1
finalise
end
$ 3 report, patch, mrs 9 0x0, trace
armcaps: line 6: kind 14 finalise
== the end while a core is coming
armcaps 1
core 0
core 1
boot 0
finalise
check 1
end
$ 3 report, patch, mrs 9 0x0, trace
armcaps: line 7: kind 15 incomplete
== a core goes that never came
armcaps 2
core 0
core 1
boot 0
offline 1
finalise
end
$ 3 report, patch, mrs 9 0x0, trace
armcaps: line 5: kind 13 turn
== a core goes in format 1
armcaps 1
core 0
core 1
boot 0
online 1
offline 1
finalise
end
$ 3 report, patch, mrs 9 0x0, trace
armcaps: line 6: kind 4 unknown-line
== a name that is no capability
armcaps 1
core 0
boot 0
finalise
number 1 BANANA
end
$ 3 report, patch, mrs 9 0x0, trace
armcaps: line 5: kind 8 name
== a capability that is given
armcaps 1
core 0
boot 0
finalise
given 100 SVE on
end
$ 3 report, patch, mrs 9 0x0, trace
armcaps: line 5: kind 8 name
== a number above 32767
armcaps 1
core 0
boot 0
finalise
number 32768 SVE
end
$ 3 report, patch, mrs 9 0x0, trace
armcaps: line 5: kind 7 number
== a table beyond the image
armcaps 1
core 0
boot 0
finalise
table 0 1
image 11
$ 3 report, patch, mrs 9 0x0, trace
armcaps: line 6: kind 17 table-outside
== an image above its limit
armcaps 2
core 0
boot 0
finalise
image 536870913
$ 3 report, patch, mrs 9 0x0, trace
armcaps: line 5: kind 7 number
== vector lengths above their limit
armcaps 2
core 0
sve_vl 0x10000
boot 0
finalise
end
$ 3 report, patch, mrs 9 0x0, trace
armcaps: line 3: kind 7 number
== a byte after the text
armcaps 1
core 0
boot 0
finalise
end
x$ 3 report, patch, mrs 9 0x0, trace
armcaps: trailing bytes: 1
== a byte too few after the text
armcaps 1
core 0
boot 0
finalise
image 10
123456789$ 3 report, patch, mrs 9 0x0, trace
armcaps: image short: 9 of 10 bytes
== a byte too many after the text
armcaps 1
core 0
boot 0
finalise
image 10
12345678901$ 3 report, patch, mrs 9 0x0, trace
armcaps: trailing bytes: 1
== tags that a core has not
armcaps 1
core 0
id_aa64pfr1_el1 0x200
core 1
boot 0
online 1
finalise
end
$ 7 report, patch, mrs 9 0x0, trace
armcaps: panic: core 1: cap 5 MTE
== fewer bits of ASIDs
armcaps 1
core 0
id_aa64mmfr0_el1 0x20
core 1
boot 0
online 1
finalise
end
$ 7 report, patch, mrs 9 0x0, trace
armcaps: panic: core 1: asid
== the first core that stops the machine
armcaps 1
core 0
id_aa64pfr1_el1 0x200
core 1
core 2
boot 0
check 2
check 1
local 1
local 2
store 1
store 2
finalise
end
$ 7 report, patch, mrs 9 0x0, trace
armcaps: panic: core 2: cap 5 MTE
";
