ghost use Rattle.std.specs.Prelude.{◌≡◌, ◌<◌, ◌+◌, ℕ, Bool, if◌then◌else◌, false, true};
ghost use Rattle.armcaps_hwcap.specs.Rows.{hwcap_count};
ghost use Rattle.armcaps_hwcap.specs.Words.{hwcap2_word, hwcap_word, set_has_row, HasFirst};

use crate::table::line_at;

/// The two words that programs of users get: a set of hwcaps.
///
/// Source: Linux, `AT_HWCAP` and `AT_HWCAP2` of the auxiliary vector.
#[derive(Clone, Copy, Debug, PartialEq, Eq)]
pub struct HwSet {
    /// The first word.
    pub hwcap: u64,
    /// The second word.
    pub hwcap2: u64,
}

impl HwSet {
    /// Whether the hwcap at this place of the table is in the set.
    pub fn contains(&self, index: usize) -> bool
        requires { index < hwcap_count }
        ensures bit { result ≡ set_has_row self.now index }
        ensures empty { self.now.hwcap ≡ 0 → self.now.hwcap2 ≡ 0 → result ≡ false }
        ensures made { (has : ℕ → Bool) → self.now.hwcap ≡ hwcap_word has → self.now.hwcap2 ≡ hwcap2_word has
            → result ≡ has index }
    {
        let line = line_at(index);
        self.word(line.second) >> line.bit & 1 == 1
    }

    // The second or the first word.
    fn word(&self, second: bool) -> u64
        ensures { result ≡ (if second then self.now.hwcap2 else self.now.hwcap) }
    {
        if second { self.hwcap2 } else { self.hwcap }
    }
}

/// The set with one more hwcap, by its place in the table. The others are in the set as before.
pub(crate) fn with_row(set: HwSet, index: usize) -> HwSet
    requires { index < hwcap_count }
    ensures { (test : ℕ → Bool) → test index ≡ true → HasFirst index test set → HasFirst (index + 1) test result }
{
    let line = line_at(index);
    let bit = 1 << line.bit;
    if line.second {
        HwSet {
            hwcap2: set.hwcap2 | bit,
            ..set
        }
    } else {
        HwSet {
            hwcap: set.hwcap | bit,
            ..set
        }
    }
}
