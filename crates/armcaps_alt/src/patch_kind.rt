ghost use Rattle.std.specs.Prelude.{◌≡◌, ◌≤◌, length};

/// Why an entry is refused, in the order in which the kinds are asked. All but the first are asked only of entries that
/// are selected.
#[derive(Clone, Copy, Debug, PartialEq, Eq)]
pub enum PatchKind {
    /// Its number isn't named.
    UnknownCap,
    /// Its site, its site's length, or without a callback its replacement is no multiple of four bytes.
    Unaligned,
    /// Its site isn't within the image.
    SiteOutside,
    /// Its replacement's length isn't its site's; with a callback, it isn't 0.
    Length,
    /// Its replacement isn't within the image.
    ReplacementOutside,
    /// Its callback isn't named.
    UnknownCallback,
    /// Its site hasn't the length that its callback makes: four words that load CTR_EL0, one word for a call of the
    /// firmware.
    CallbackLength,
    /// A word of its replacement takes an address in a way that isn't followed.
    Literal,
    /// A word of its replacement can't reach its target from the site.
    Range,
}

impl PatchKind {
    ghost use Rattle.armcaps_alt.specs.Refusals.{kind_number, kind_word};

    /// The number by which the kind is reported.
    pub fn number(self) -> u8
        ensures { result ≡ kind_number self }
    {
        self as u8 + 1
    }

    /// The word by which the kind is reported.
    #[tactic(auto, unfolding(crate::specs::Refusals::kind_word))]
    pub fn word(self) -> &'static str
        ensures word { result.now ≡ kind_word self }
        ensures short { length result.now ≤ 19 }
    {
        match self {
            PatchKind::UnknownCap => "unknown-cap",
            PatchKind::Unaligned => "unaligned",
            PatchKind::SiteOutside => "site-outside",
            PatchKind::Length => "length",
            PatchKind::ReplacementOutside => "replacement-outside",
            PatchKind::UnknownCallback => "unknown-callback",
            PatchKind::CallbackLength => "callback-length",
            PatchKind::Literal => "literal",
            PatchKind::Range => "range",
        }
    }
}
