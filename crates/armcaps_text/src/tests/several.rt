//! Texts that stand one after the other.

use crate::{TextKind, TextsRefused, TextsUnread, read_texts};
use std::alloc::Global;
use std::test::Fail;

const SMALL: &str = "armcaps 1\ncore 0\nboot 0\nfinalise\nend\n";

const NEWER: &str = "armcaps 2\ncore 0\nboot 0\nfinalise\nend\n";

const WITH_IMAGE: &str = "armcaps 1\ncore 0\nboot 0\nfinalise\nimage 4\nend\n";

const OUT_OF_TURN: &str = "armcaps 1\ncore 0\ncore 1\nboot 0\nlocal 1\nfinalise\nend\n";

// How many texts there are, or why they are refused; neither where there was no memory.
fn count(alloc: Global, bytes: &[u8]) -> Result<usize, Option<TextsRefused>> {
    match read_texts(alloc, bytes) {
        Ok(machines) => Ok(machines.len()),
        Err(TextsUnread::Refused(refused)) => Err(Some(refused)),
        Err(TextsUnread::Memory) => Err(None),
    }
}

#[test]
fn judges_each_text_from_its_beginning(rt: HostRuntime) -> Result<(), Fail> {
    let out_of_turn = TextsRefused::Line {
        number: 1,
        line: 5,
        kind: TextKind::Turn,
    };
    let cut_off = TextsRefused::Line {
        number: 1,
        line: 1,
        kind: TextKind::Unfinished,
    };
    for (first, second, wanted) in [
        (SMALL, "", Ok(1)),
        (SMALL, NEWER, Ok(2)),
        (NEWER, SMALL, Ok(2)),
        (SMALL, "armcaps 1", Err(Some(cut_off))),
        (SMALL, OUT_OF_TURN, Err(Some(out_of_turn))),
        (
            SMALL,
            WITH_IMAGE,
            Err(Some(TextsRefused::Image { number: 1 })),
        ),
        (
            WITH_IMAGE,
            OUT_OF_TURN,
            Err(Some(TextsRefused::Image { number: 0 })),
        ),
    ] {
        let texts = format!(in rt.alloc(); "{first}{second}")?;
        assert_eq!(rt; count(rt.alloc(), texts.as_bytes()), wanted, "{second}");
    }
    Ok(())
}

#[test]
fn takes_sixty_four_texts(rt: HostRuntime) -> Result<(), Fail> {
    let mut texts = SMALL.to_string(rt.alloc())?;
    for _ in 1..64 {
        texts.push_str(NEWER)?;
    }
    assert_eq!(rt; count(rt.alloc(), texts.as_bytes()), Ok(64));
    texts.push_str("#")?;
    assert_eq!(rt;
        count(rt.alloc(), texts.as_bytes()),
        Err(Some(TextsRefused::TooMany))
    );
    Ok(())
}
