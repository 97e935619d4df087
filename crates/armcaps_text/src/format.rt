// The two formats of a machine text.
use crate::lines::{first_mebibyte, next_line};
use crate::tokens::Tokens;

/// What a format of the machine text allows.
#[derive(Clone, Copy, Debug, PartialEq, Eq)]
pub struct Format {
    /// A text may begin this many cores.
    pub cores: u32,
    /// The greatest offset into an image, and the greatest length of one.
    pub image: u32,
    /// An input may have this many bytes, the image's among them.
    pub input: usize,
    /// The lines `offline` and `sve_vl` are there.
    pub extended: bool,
}

impl Format {
    ghost use Rattle.std.specs.Prelude.{◌≡◌};
    ghost use Rattle.armcaps_text.specs.Formats.{format_one, format_two, format_named, format_of};

    /// Format 1.
    pub fn one() -> Self
        ensures { result ≡ format_one }
    {
        Format {
            cores: 64,
            image: 134_217_728,
            input: 135_266_304,
            extended: false,
        }
    }

    /// Format 2.
    pub fn two() -> Self
        ensures { result ≡ format_two }
    {
        Format {
            cores: 512,
            image: 536_870_912,
            input: 537_919_488,
            extended: true,
        }
    }

    /// The format that line 1 of a text names; `None` where it is no header.
    #[tactic(auto, unfolding(crate::specs::Formats::format_named, crate::specs::Tokens::tokens_of))]
    pub(crate) fn named(line: &[u8]) -> Option<Self>
        ensures { result ≡ format_named line.now }
    {
        let tokens = Tokens::of(line);
        if tokens.count != 2 || tokens.word != b"armcaps".as_slice() {
            None
        } else if tokens.second == b"1".as_slice() {
            Some(Format::one())
        } else if tokens.second == b"2".as_slice() {
            Some(Format::two())
        } else {
            None
        }
    }

    /// The format by which an input is judged: the one that its line 1 names, if that ends among the first 1,048,576
    /// bytes, or else format 1.
    pub fn of(input: &[u8]) -> Self
        ensures { result ≡ format_of input.now }
    {
        match next_line(first_mebibyte(input)) {
            Some((line, _)) => Format::named(line).unwrap_or(Format::one()),
            None => Format::one(),
        }
    }
}
