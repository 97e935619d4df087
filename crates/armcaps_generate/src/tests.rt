use super::*;
use armcaps_enc::SysReg;
use std::process::Abort;
use std::test::Fail;

// A board of eight cores and an image, with bytes that were calculated apart.
#[test]
fn makes_a_board_and_an_image(rt: HostRuntime) -> Result<(), Fail> {
    let Generated {
        board,
        steps,
        image,
    } = generate(rt.alloc(), 7, 8)?;
    assert_eq!(rt; board.cores.len(), 8);
    assert_eq!(rt; board.cores[4].get(SysReg::MidrEl1), 0x410f_d092);
    assert_eq!(rt; board.cores[5].get(SysReg::MidrEl1), 0x410f_d034);
    assert_eq!(rt; steps.len(), 8);
    assert_eq!(rt; image.len(), 2_097_152);
    let entry = [0, 0, 4, 0, 0xfc, 0xff, 0x0f, 0, 0x17, 0, 16, 16];
    assert_eq!(rt; &image[..12], entry.as_slice());
    let words = [
        0x2f, 0x03, 0xfd, 0x97, 0x1f, 0x20, 0x03, 0xd5, 0x80, 0x02, 0x00, 0xf0, 0x1f, 0x20, 0x03,
        0xd5,
    ];
    assert_eq!(rt; &image[1_048_576..1_048_592], words.as_slice());
    let last = [
        0x20, 0x8d, 0x84, 0x52, 0x40, 0xf5, 0xff, 0xf0, 0x88, 0x90, 0xfa, 0x97,
    ];
    assert_eq!(rt; &image[1_688_544..1_688_556], last.as_slice());
    Ok(())
}
