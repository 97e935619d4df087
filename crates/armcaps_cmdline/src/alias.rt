//! The words that turn features off.

ghost use Rattle.std.specs.Prelude.{◌≡◌};
ghost use Rattle.armcaps_cmdline.specs.Assignments.{alias_named, alias_word};

/// A word that sets one or more fields to 0.
///
/// Source: Linux, arch/arm64/kernel/idreg-override.c, `aliases`.
#[derive(Clone, Copy, Debug, PartialEq, Eq)]
pub(crate) enum Alias {
    NoSve,
    NoSme,
    NoBti,
    NoMte,
    NoMops,
    NoPauth,
}

impl Alias {
    const ALL: [Alias; 6] = [
        Alias::NoSve,
        Alias::NoSme,
        Alias::NoBti,
        Alias::NoMte,
        Alias::NoMops,
        Alias::NoPauth,
    ];

    fn word(self) -> &'static str
        ensures { result.now ≡ alias_word self }
    {
        match self {
            Alias::NoSve => "arm64.nosve",
            Alias::NoSme => "arm64.nosme",
            Alias::NoBti => "arm64.nobti",
            Alias::NoMte => "arm64.nomte",
            Alias::NoMops => "arm64.nomops",
            Alias::NoPauth => "arm64.nopauth",
        }
    }

    /// The alias that a word is; `None` where it is none.
    #[tactic(auto, unfolding(crate::specs::Assignments::alias_named))]
    pub(crate) fn named(word: &[u8]) -> Option<Alias>
        ensures { result ≡ alias_named word.now }
    {
        Alias::ALL
            .iter()
            .copied()
            .find(|alias| alias.word().as_bytes() == word)
    }
}
