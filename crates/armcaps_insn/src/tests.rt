use super::*;

// Words of a sequence of replacements from 0x2000 to 0x2008 that go to a site at 0x100.
#[test]
fn words_move(rt: HostRuntime) {
    let moved = [
        (0x9400_0400, Ok(0x9400_0bc0)),
        (0x1400_0002, Ok(0x1400_0002)),
        (0x1400_0003, Ok(0x1400_07c3)),
        (0x17ff_ffff, Ok(0x1400_07bf)),
        (0x1000_0000, Err(FixRefused::Literal { word: 0x1000_0000 })),
        (0x5500_0000, Err(FixRefused::Literal { word: 0x5500_0000 })),
        (0xd503_201f, Ok(0xd503_201f)),
    ];
    for (word, expected) in moved {
        assert_eq!(rt; correct(word, 0x2000, 0x100, 0x2000, 0x2008), expected);
    }
    assert_eq!(rt;
        correct(0x1400_0001, 0x2004, 0x104, 0x2000, 0x2008),
        Ok(0x1400_0001)
    );
    let single = [
        (0xf000_0000, Ok(0xb000_0020)),
        (0x5800_0040, Err(FixRefused::Literal { word: 0x5800_0040 })),
        (0x3603_ff80, Err(FixRefused::Range { offset: 40704 })),
    ];
    for (word, expected) in single {
        assert_eq!(rt; correct(word, 0x2010, 0x100, 0x2010, 0x2014), expected);
    }
    assert_eq!(rt;
        correct(0x9400_003f, 0x1804, 0x1000, 0x1800, 0x1808),
        Ok(0x9400_0240)
    );
}

#[test]
fn words_are_decoded(rt: HostRuntime) {
    let adrp = Insn {
        class: Class::Page,
        rest: 0x9000_0000,
        offset: Some(12288),
    };
    assert_eq!(rt; Insn::decode(0xf000_0000), adrp);
    let back = Insn {
        class: Class::Jump26,
        rest: 0x1400_0000,
        offset: Some(-4),
    };
    assert_eq!(rt; Insn::decode(0x17ff_ffff), back);
    let nop = Insn {
        class: Class::Other,
        rest: 0xd503_201f,
        offset: None,
    };
    assert_eq!(rt; Insn::decode(NOP), nop);
}

#[test]
fn branches_are_made(rt: HostRuntime) {
    assert_eq!(rt; branch_word(0x100, 0x180), Some(0x1400_0020));
    assert_eq!(rt; branch_word(0x100, 0x182), None);
    assert_eq!(rt; branch_word(0x100, 0x100 - 0x800_0000), Some(0x1600_0000));
    assert_eq!(rt; branch_word(0x100, 0x100 - 0x800_0004), None);
    assert_eq!(rt; branch_word(0x100, 0x100 + 0x7ff_fffc), Some(0x15ff_ffff));
    assert_eq!(rt; branch_word(0x100, 0x100 + 0x800_0000), None);
}
