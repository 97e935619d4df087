//! Fields of 64-bit words: the bit ranges of the Arm ID registers, read and written as numbers.
#![tactic(auto)]

mod const_range;
mod field_span;
mod laws;
mod range;

pub use const_range::Bits;
pub use field_span::Span;
pub use laws::ranges_agree;

#[cfg(test)]
mod tests {
    use super::*;

    // ID_AA64ISAR0_EL1 of a core with LSE (Atomic, bits 23 to 20, is 2), and ID_AA64PFR0_EL1 of one without floating
    // point (FP, bits 19 to 16, is 15, which is -1).
    #[test]
    fn reads_and_puts_fields(rt: HostRuntime) {
        assert_eq!(rt; Bits::<20, 4>::mask(), 0xf0_0000);
        assert_eq!(rt; Bits::<20, 4>::unsigned(0x1021_1120), 2);
        assert_eq!(rt; Bits::<20, 4>::put(0x1021_1120, 0), 0x1001_1120);
        assert_eq!(rt; Bits::<16, 4>::signed(0xf_0011), -1);
        let floating_point = Span {
            shift: 16,
            width: 4,
            signed: true,
        };
        assert_eq!(rt; floating_point.value(0xf_0011), -1);
        assert!(rt; floating_point.fits(-8));
        assert_eq!(rt; floating_point.put(0x11, -1), 0xf_0011);
        ranges_agree();
    }
}
