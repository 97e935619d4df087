//! Lines that are refused, and their kinds.

use super::{refusal, under};
use crate::TextKind;
use std::test::Fail;

// What both formats say of lines, and with which kind they refuse them.
#[test]
fn refuses_alike_in_both_formats(rt: HostRuntime) -> Result<(), Fail> {
    for (lines, line, kind) in [
        ("core 0", 2, TextKind::Unfinished),
        ("core 0\nboot 0\nfinalise\nend", 5, TextKind::Unfinished),
        ("banana\n", 2, TextKind::UnknownLine),
        (
            "core 0\nboot 0\nfinalise\nend\r\n",
            5,
            TextKind::UnknownLine,
        ),
        // names are compared byte for byte, and only the space cuts
        ("Core 0\n", 2, TextKind::UnknownLine),
        ("\tcore 0\n", 2, TextKind::UnknownLine),
        ("core 0\narmcaps 1\n", 3, TextKind::Order),
        // a section that falls, whatever else is wrong with the line
        ("core 0\nboot 0\ncore x y\n", 4, TextKind::Order),
        ("core 0\nboot 0\nboot\n", 4, TextKind::Order),
        ("core 0\nboot 0\ncmdline\ncmdline\n", 5, TextKind::Order),
        (
            "core 0\nboot 0\nfinalise\nconduit hvc\nconduit hvc\n",
            6,
            TextKind::Order,
        ),
        (
            "core 0\nboot 0\nfinalise\ntable 0 0\ntable 0 0\n",
            6,
            TextKind::Order,
        ),
        ("ctr_el0 1\n", 2, TextKind::Order),
        ("boot\n", 2, TextKind::Order),
        ("core 0\nfinalise\n", 3, TextKind::Order),
        ("end\n", 2, TextKind::Order),
        ("core 0\nboot\n", 3, TextKind::Tokens),
        ("core 0 0\n", 2, TextKind::Tokens),
        (
            "core 0\nboot 0\nfinalise\ngiven 40000 SVE yes no\n",
            5,
            TextKind::Tokens,
        ),
        ("core 0\nboot 4294967296\n", 3, TextKind::Number),
        (
            "core 0\nctr_el0 000000000000000000001\n",
            3,
            TextKind::Number,
        ),
        ("core 0\nctr_el0 0x10000000000000000\n", 3, TextKind::Number),
        ("core 0\nctr_el0 11120f\n", 3, TextKind::Number),
        ("core 0\nctr_el0 1\nctr_el0 0X1\n", 4, TextKind::Number),
        (
            "core 0\nboot 0\nfinalise\nnumber 32768 SVE\n",
            5,
            TextKind::Number,
        ),
        (
            "core 0\nboot 0\nfinalise\ntable 0 1048577\n",
            5,
            TextKind::Number,
        ),
        (
            "core 0\nboot 0\nfinalise\nnumber 1 BANANA\n",
            5,
            TextKind::Name,
        ),
        (
            "core 0\nboot 0\nfinalise\ngiven 100 SVE on\n",
            5,
            TextKind::Name,
        ),
        (
            "core 0\nboot 0\nfinalise\ngiven 100 WORKAROUND_1508412 on\n",
            5,
            TextKind::Name,
        ),
        (
            "core 0\nboot 0\nfinalise\ngiven 100 A-B on\n",
            5,
            TextKind::Name,
        ),
        (
            "core 0\nboot 0\nfinalise\ngiven 100 A On\n",
            5,
            TextKind::Name,
        ),
        ("core 0\nboot 0\nfinalise\nconduit HVC\n", 5, TextKind::Name),
        (
            "core 0\nboot 0\nfinalise\ncallback 0 nop\n",
            5,
            TextKind::Name,
        ),
        ("core 0\nctr_el0 1\nctr_el0 1\n", 4, TextKind::Twice),
        (
            "core 0\nboot 0\nfinalise\nnumber 7 SVE\ngiven 7 A on\n",
            6,
            TextKind::Twice,
        ),
        (
            "core 0\nboot 0\nfinalise\ncallback 4 keep\ncallback 0x4 nops\n",
            6,
            TextKind::Twice,
        ),
        ("core 0\ncore 2\n", 3, TextKind::CoreNumber),
        ("core 0\nboot 1\n", 3, TextKind::CoreNumber),
        ("core 0\nboot 0\nlocal 1\n", 4, TextKind::CoreNumber),
        ("core 0\nboot 0\nonline 0\n", 4, TextKind::BootStep),
        ("core 0\ncore 1\nboot 1\nstore 1\n", 5, TextKind::BootStep),
        ("core 0\ncore 1\nboot 0\nlocal 1\n", 5, TextKind::Turn),
        (
            "core 0\ncore 1\nboot 0\ncheck 1\nstore 1\n",
            6,
            TextKind::Turn,
        ),
        (
            "core 0\ncore 1\nboot 0\nonline 1\ncheck 1\n",
            6,
            TextKind::Turn,
        ),
        (
            "core 0\nboot 0\nfinalise\nfinalise\n",
            5,
            TextKind::Finalise,
        ),
        (
            "core 0\ncore 1\nboot 0\ncheck 1\nfinalise\n",
            6,
            TextKind::Finalise,
        ),
        (
            "core 0\nid_aa64isar0_el1 0x11120\nboot 0\nend\n",
            5,
            TextKind::Incomplete,
        ),
        (
            "core 0\ncore 1\nboot 0\nfinalise\ncheck 1\nend\n",
            7,
            TextKind::Incomplete,
        ),
        (
            "core 0\nboot 0\nfinalise\ntable 0 1\nimage 11\n",
            6,
            TextKind::TableOutside,
        ),
        (
            "core 0\nboot 0\nfinalise\ntable 5 0\nend\n",
            6,
            TextKind::TableOutside,
        ),
    ] {
        for format in [1, 2] {
            let text = under(rt.alloc(), format, lines)?;
            assert_eq!(rt;
                refusal(rt.alloc(), text.as_bytes()),
                Some((line, kind)),
                "{format} {lines}"
            );
        }
    }
    Ok(())
}

// Lines that one format has alone, and the limits of each.
#[test]
fn refuses_by_format(rt: HostRuntime) -> Result<(), Fail> {
    for (format, lines, refused) in [
        (1, "core 0\nsve_vl 1\n", (3, TextKind::UnknownLine)),
        (2, "core 0\nsve_vl 1\n", (4, TextKind::Unfinished)),
        (2, "sve_vl 1\n", (2, TextKind::Order)),
        (2, "core 0\nsve_vl\n", (3, TextKind::Tokens)),
        (2, "core 0\nsve_vl 65536\n", (3, TextKind::Number)),
        (2, "core 0\nsve_vl 1\nsve_vl 1\n", (4, TextKind::Twice)),
        (
            1,
            "core 0\ncore 1\nboot 0\noffline 1\n",
            (5, TextKind::UnknownLine),
        ),
        (
            2,
            "core 0\ncore 1\nboot 0\noffline 1\n",
            (5, TextKind::Turn),
        ),
        (
            2,
            "core 0\ncore 1\nboot 0\noffline 0\n",
            (5, TextKind::BootStep),
        ),
        (
            2,
            "core 0\ncore 1\nboot 0\nonline 1\noffline 1\nlocal 1\n",
            (7, TextKind::Turn),
        ),
        (
            2,
            "core 0\ncore 1\nboot 0\nonline 1\noffline 1\ncheck 1\nfinalise\n",
            (8, TextKind::Finalise),
        ),
        (
            1,
            "core 0\nboot 0\nfinalise\nimage 134217729\n",
            (5, TextKind::Number),
        ),
        (
            2,
            "core 0\nboot 0\nfinalise\nimage 536870913\n",
            (5, TextKind::Number),
        ),
        (
            1,
            "core 0\nboot 0\nfinalise\ntable 134217729 0\n",
            (5, TextKind::Number),
        ),
        (
            2,
            "core 0\nboot 0\nfinalise\ntable 134217729 0\nend\n",
            (6, TextKind::TableOutside),
        ),
        (
            2,
            "core 0\nboot 0\nfinalise\ncallback 536870913 keep\n",
            (5, TextKind::Number),
        ),
    ] {
        let text = under(rt.alloc(), format, lines)?;
        assert_eq!(rt;
            refusal(rt.alloc(), text.as_bytes()),
            Some(refused),
            "{format} {lines}"
        );
    }
    Ok(())
}
