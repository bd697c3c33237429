//! A line of text: one letter, then three fields of five characters, then a line feed.
ghost use Rattle.std.specs.Prelude.{◌≡◌};
ghost use Rattle.lines.specs.Text.{layout_read};

/// How the fifteen characters after a letter are divided.
#[derive(Clone, Copy, PartialEq, Eq, Debug)]
pub enum Layout {
    /// Three numbers.
    Three,
    /// An unused field, then two numbers.
    LastTwo,
    /// Two numbers, then an unused field.
    FirstTwo,
    /// A number, then a stored row count in ten characters.
    Counted,
    /// A number or an unused field, then two unused fields.
    Single,
}

/// A letter with which no line begins.
#[derive(Clone, Copy, PartialEq, Eq, Debug)]
pub struct UnlistedLetter(pub char);

/// The layout that goes with a line's letter.
impl TryFrom<char> for Layout {
    type Error = UnlistedLetter;

    ghost try_from_gives = { λ letter r. r ≡ layout_read letter };

    fn try_from(letter: char) -> Result<Layout, UnlistedLetter> {
        match letter {
            'H' | 'T' | 'N' | 'D' | 'X' => Ok(Layout::Three),
            'E' | 'J' | 'M' => Ok(Layout::LastTwo),
            'G' => Ok(Layout::FirstTwo),
            'R' => Ok(Layout::Counted),
            'P' => Ok(Layout::Single),
            _ => Err(UnlistedLetter(letter)),
        }
    }
}

/// What the fields of a line hold. There is one case for each layout.
#[derive(Clone, Copy, PartialEq, Eq, Debug)]
pub enum Fields {
    Three(u32, u32, u32),
    LastTwo(u32, u32),
    FirstTwo(u32, u32),
    Counted(u32, i64),
    Single(Option<u32>),
}

/// A line: its letter, and what its fields hold.
// stays: eleven letters have five layouts. An enum with a case for each letter would say five times how three numbers are read, written and
// proved (H, T, N, D, X), and three times how two are; here each layout is said once
#[derive(Clone, Copy, PartialEq, Eq, Debug)]
pub struct Line {
    pub letter: char,
    pub fields: Fields,
}

/// The byte that a line begun as the text goes on cannot have.
#[derive(Clone, Copy, PartialEq, Eq, Debug)]
pub struct BadByte {
    /// Its offset in the text.
    pub place: usize,
}
