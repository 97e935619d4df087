//! Whether sections share bytes.

ghost use Rattle.std.specs.Prelude.{◌≡◌, ◌<◌, false};
ghost use Rattle.std.specs.List.{All, AllPairs};
ghost use Rattle.std.specs.List.Sorted.{IsNonDecreasingBy};
ghost use Rattle.armcaps_elf.specs.Sections.{Follows, begin_of, overlap};

use crate::begin::Begin;
use crate::section::Section;

// Whether two of these sections, which stand in the order of their begins, share a byte there: then one begins
// before the end of the section before it.
pub(crate) fn share(sections: &[Section], begin: Begin) -> bool
    requires rise { IsNonDecreasingBy (begin_of begin) sections.now }
    requires some { All (λ section. 0 < section.size) sections.now }
    ensures shared { result ≡ overlap (begin_of begin) sections.now }
    ensures follow { result ≡ false → AllPairs (Follows (begin_of begin)) sections.now }
{
    for index in 1..sections.len() {
        let before = &sections[index - 1];
        if begin.of(&sections[index]) - begin.of(before) < before.size {
            return true;
        }
    }
    false
}
