//! Why a text is refused.
//! stays: the numbers are those of the X lines. An enum whose cases carry values gives none by `as`, so a match does.
ghost use Rattle.std.specs.Prelude.{◌≡◌};
ghost use Rattle.texts.specs.Fault.{text_number, text_value};
ghost use Rattle.texts.specs.declared.fault.TextFault.TheVariants.{BadForm};

use lines::line::BadByte;

/// A text's refusal, with the place in the text, or the amount, that it names.
#[derive(Clone, Copy, PartialEq, Eq, Debug)]
pub enum TextFault {
    /// 15: the first byte that no line begun so can have, or the text's end.
    BadForm { place: usize },
    /// 16: the offset of a line whose letter cannot stand there.
    Misplaced { place: usize },
    /// 17: the offset of a line with a number outside its limits.
    OutOfLimits { place: usize },
    /// 9: how many records, or bytes, are needed.
    TooFew { needed: usize },
}

/// A byte that cannot stand in a line is a text's refusal at its place.
impl From<BadByte> for TextFault {
    ghost from_gives = { λ bad r. r ≡ BadForm bad.place };

    fn from(bad: BadByte) -> TextFault {
        TextFault::BadForm { place: bad.place }
    }
}

impl TextFault {
    /// The refusal's number.
    pub fn number(self) -> u32
        ensures { result ≡ text_number self }
    {
        match self {
            TextFault::BadForm { place: _ } => 15,
            TextFault::Misplaced { place: _ } => 16,
            TextFault::OutOfLimits { place: _ } => 17,
            TextFault::TooFew { needed: _ } => 9,
        }
    }

    /// The place in the text, or the amount that it names.
    pub fn place(self) -> usize
        ensures { result ≡ text_value self }
    {
        match self {
            TextFault::BadForm { place }
            | TextFault::Misplaced { place }
            | TextFault::OutOfLimits { place } => place,
            TextFault::TooFew { needed } => needed,
        }
    }
}
