//! What the loaded sections reach over.

ghost use Rattle.std.specs.Prelude.{◌≡◌, ◌+◌, ◌≤◌, ◌^◌, IfNone, IfSome, false, true};
ghost use Rattle.std.specs.List.{All};
ghost use Rattle.armcaps_elf.specs.Refusals.{has_long_span};
ghost use Rattle.armcaps_elf.specs.Sections.{base_of, greatest_end, least_address, span_of};

use crate::section::Section;

// How many bytes a flat image has at most.
const MOST_BYTES: u128 = 134_217_728;

// The least address at which a section begins, and the greatest at which one ends, which may be above 2^64.
#[derive(Clone, Copy, Debug)]
pub(crate) struct Bounds {
    least: u64,
    end: u128,
}

impl Bounds {
    // The bounds of these sections.
    fn of(sections: &[Section]) -> Bounds
        ensures least { result.least ≡ least_address sections.now }
        ensures end { result.end ≡ greatest_end sections.now }
        ensures below { All (λ section. result.least ≤ section.address) sections.now }
        ensures above { All (λ section. section.address + section.size ≤ result.end) sections.now }
    {
        let mut least = u64::MAX;
        let mut end = 0;
        for section in sections {
            least = least.min(section.address);
            end = end.max(section.address as u128 + section.size as u128);
        }
        Bounds { least, end }
    }
}

// The flat image's first address, and its length.
#[derive(Clone, Copy, Debug)]
pub(crate) struct Extent {
    pub(crate) base: u64,
    pub(crate) span: u64,
}

impl Extent {
    // The extent of the flat image of these sections, or nothing for kind 8: one ends above address 2^64, or it is
    // too long.
    pub(crate) fn of(sections: &[Section]) -> Option<Extent>
        ensures none { IfNone result (has_long_span sections.now ≡ true) }
        ensures some { IfSome result (λ extent. has_long_span sections.now ≡ false) }
        ensures base { IfSome result (λ extent. extent.base ≡ base_of sections.now) }
        ensures span { IfSome result (λ extent. extent.span ≡ span_of sections.now) }
        ensures above { IfSome result (λ extent. All (λ section. extent.base ≤ section.address) sections.now) }
        ensures below { IfSome result (λ extent.
            All (λ section. section.address + section.size ≤ extent.base + extent.span) sections.now) }
        ensures small { IfSome result (λ extent. extent.span ≤ 2 ^ 27) }
    {
        let bounds = Bounds::of(sections);
        let base = bounds.least - bounds.least % 4096;
        let span = bounds.end.saturating_sub(base as u128);
        if bounds.end > 1 << 64 || span > MOST_BYTES {
            return None;
        }
        Some(Extent {
            base,
            span: span as u64,
        })
    }
}
