//! Reading one line: the line, or the first byte that no line begun so can have.
ghost use Rattle.std.specs.Prelude.{◌≡◌, ◌+◌, ◌-◌, ◌*◌, ◌<◌, ◌≤◌, true, length, IfOk, OnOk, slice_index};
ghost use Rattle.lines.specs.Read.{byte as the_byte, number_from, number_at, count_at, unused_at, optional_at, fields_at, line_at, signed};
ghost use Rattle.lines.specs.Form.{LineRead};
ghost use Rattle.columns.specs.Place.{place_at, mark_at, first_marks_at, blank_at, Blank};

use lines::line::{BadByte, Fields, Layout, Line};
use std::marker::Model;

/// What the places of a row count tell that have been read: whether a minus sign was among them, and the value of the digits.
#[derive(Clone, Copy)]
struct Count {
    minus: bool,
    value: u64,
}

/// At most ten digits are read.
// stays: a sign comes before its first digit, and minus zero is no signed number, so sign and value are two
// stays: the definitions go from one pair to the next; over the struct itself each of them would have to carry the bound
impl Model for Count {
    ghost use Rattle.std.specs.Prelude.{Bool, ℕ, ◌≤◌};

    ghost Value = { Bool × ℕ };

    ghost view = { λ s. (s.minus, s.value) };

    ghost invariant = { λ s. s.value ≤ 9999999999 };

    ghost inverse = { λ s. record { minus = s.0; value = s.1 } };
}

impl From<Count> for i64 {
    ghost from_gives = { λ s z. (s.0 ≡ true → 1 ≤ s.1) → z ≡ signed s.0 s.1 };

    fn from(count: Count) -> i64 {
        let value = count.value as i64;
        if count.minus { -value } else { value }
    }
}

/// A place where a field begins. It may lie past the text's end, by no more than a line's fields reach.
#[derive(Clone, Copy)]
struct Field<'a> {
    text: &'a [u8],
    at: usize,
    ghost near: { at ≤ length text.now + 16 },
}

impl<'a> Field<'a> {
    /// The byte `k` places on, and 0 past the text's end.
    // stays: how far a place may be is said where it is asked for; a type for it would be made from a loop's number each time
    fn byte(self, k: usize) -> u8
        requires { k ≤ 9 }
        ensures { result ≡ the_byte self.entry.text.now (self.entry.at + k) }
    {
        self.text.get(self.at + k).copied().unwrap_or(0)
    }

    /// The refusal of that byte.
    fn bad(self, k: usize) -> BadByte
        requires { k ≤ 9 }
        ensures { result.place ≡ self.entry.at + k }
    {
        BadByte { place: self.at + k }
    }

    /// One of the five places of a number, after places of the value `v`.
    // stays: the first bad place is told, which `str::parse` does not tell; `mark` differs in sign, width and the type of its value
    fn place(self, k: usize, v: u32) -> Result<u32, BadByte>
        requires within { k ≤ 4 }
        requires low { v ≤ 99999 }
        ensures answer { result ≡ place_at self.entry.text.now (self.entry.at + k) (4 - k) v }
        ensures small { IfOk result (λ w. w ≤ v * 10 + 9) }
    {
        // whether the number may begin at a later place
        let leads = v == 0 && k != 4;
        let c = self.byte(k) as char;
        match c.to_digit(10) {
            Some(0) if leads => Err(self.bad(k)),
            Some(digit) => Ok(v * 10 + digit),
            None if c == ' ' && leads => Ok(v),
            None => Err(self.bad(k)),
        }
    }

    /// Whether the first three of five characters are blank: most numbers have at most two digits.
    fn is_short(self) -> bool
        ensures within { result ≡ true → self.entry.at + 5 ≤ length self.entry.text.now }
        ensures first { result ≡ true → slice_index self.entry.text.now self.entry.at ≡ 32 }
        ensures second { result ≡ true → slice_index self.entry.text.now (self.entry.at + 1) ≡ 32 }
        ensures third { result ≡ true → slice_index self.entry.text.now (self.entry.at + 2) ≡ 32 }
    {
        matches!(
            self.text.get(self.at..self.at + 5),
            Some([b' ', b' ', b' ', _, _])
        )
    }

    /// The last two of five characters, after blanks.
    fn last_places(self) -> Result<u32, BadByte>
        ensures { result ≡ number_from self.entry.text.now (self.entry.at + 3) 2 0 }
    {
        let v = self.place(3, 0)?;
        self.place(4, v)
    }

    /// All five characters of a number. Few numbers come here, so it stays out of what reads the others.
    #[inline(never)]
    fn places(self) -> Result<u32, BadByte>
        ensures { result ≡ number_at self.entry.text.now self.entry.at }
    {
        let mut v = 0;
        for k in 0..5 {
            v = self.place(k, v)?;
        }
        Ok(v)
    }

    /// A number in five characters.
    fn number(self) -> Result<u32, BadByte>
        ensures { result ≡ number_at self.entry.text.now self.entry.at }
    {
        if self.is_short() {
            self.last_places()
        } else {
            self.places()
        }
    }

    /// One of the ten places of a row count, after what `s` tells.
    fn mark(self, k: usize, s: Count) -> Result<Count, BadByte>
        requires within { k ≤ 9 }
        requires low { s.1 ≤ 999999999 }
        ensures answer { result ≡ mark_at self.entry.text.now (self.entry.at + k) (9 - k) s }
        ensures small { IfOk result (λ w. w.1 ≤ s.1 * 10 + 9) }
        ensures below { IfOk result (λ w. k ≡ 9 → w.0 ≡ true → 1 ≤ w.1) }
    {
        let Count { minus, value } = s;
        // whether the number, its sign before it, may begin at a later place
        let leads = value == 0 && !minus && k != 9;
        let c = self.byte(k) as char;
        match c.to_digit(10) {
            Some(0) if value == 0 && (minus || k != 9) => Err(self.bad(k)),
            Some(digit) => Ok(Count {
                minus,
                value: value * 10 + u64::from(digit),
            }),
            None if c == ' ' && leads => Ok(s),
            None if c == '-' && leads => Ok(Count { minus: true, value }),
            None => Err(self.bad(k)),
        }
    }

    /// The first five characters of a row count. Most counts have at most five digits.
    fn first_marks(self) -> Result<Count, BadByte>
        ensures answer { result ≡ first_marks_at self.entry.text.now self.entry.at }
        ensures small { IfOk result (λ s. s.1 ≤ 99999) }
    {
        let mut s = Count {
            minus: false,
            value: 0,
        };
        if self.is_unused() {
            return Ok(s);
        }
        for k in 0..5 {
            s = self.mark(k, s)?;
        }
        Ok(s)
    }

    /// A row count in ten characters.
    fn count(self) -> Result<i64, BadByte>
        ensures { result ≡ count_at self.entry.text.now self.entry.at }
    {
        let mut s = self.first_marks()?;
        for k in 5..10 {
            s = self.mark(k, s)?;
        }
        Ok(i64::from(s))
    }

    /// One blank.
    fn blank(self, k: usize) -> Result<(), BadByte>
        requires { k ≤ 4 }
        ensures { result ≡ blank_at self.entry.text.now (self.entry.at + k) }
    {
        if self.byte(k) == b' ' {
            Ok(())
        } else {
            Err(self.bad(k))
        }
    }

    /// Whether all of five characters are blank.
    fn is_unused(self) -> bool
        ensures { result ≡ true → Blank self.entry.text.now self.entry.at }
    {
        matches!(
            self.text.get(self.at..self.at + 5),
            Some([b' ', b' ', b' ', b' ', b' '])
        )
    }

    /// Five blanks, one after another.
    fn blanks(self) -> Result<(), BadByte>
        ensures { result ≡ unused_at self.entry.text.now self.entry.at }
    {
        for k in 0..5 {
            self.blank(k)?;
        }
        Ok(())
    }

    /// An unused field: five blanks.
    fn unused(self) -> Result<(), BadByte>
        ensures { result ≡ unused_at self.entry.text.now self.entry.at }
    {
        if self.is_unused() {
            Ok(())
        } else {
            self.blanks()
        }
    }

    /// A number, or five blanks.
    fn optional(self) -> Result<Option<u32>, BadByte>
        ensures { result ≡ optional_at self.entry.text.now self.entry.at }
    {
        if self.unused().is_ok() {
            return Ok(None);
        }
        let v = self.number()?;
        Ok(Some(v))
    }
}

/// The place of a line's letter, which lies in the text.
#[derive(Clone, Copy)]
struct Start<'a> {
    text: &'a [u8],
    at: usize,
    ghost inside: { at < length text.now },
}

impl<'a> Start<'a> {
    /// The field of that number, from 0 on.
    fn field(self, number: usize) -> Field<'a>
        requires { number ≤ 2 }
        ensures text { result.text.now ≡ self.entry.text.now }
        ensures at { result.at ≡ self.entry.at + 1 + 5 * number }
    {
        Field {
            text: self.text,
            at: self.at + 1 + 5 * number,
        }
    }

    /// Three numbers.
    #[tactic(auto, unfolding(lines::specs::Read::fields_at))]
    fn three(self) -> Result<Fields, BadByte>
        ensures { result ≡ fields_at Layout.Three self.entry.text.now (self.entry.at + 1) }
    {
        let a = self.field(0).number()?;
        let b = self.field(1).number()?;
        let c = self.field(2).number()?;
        Ok(Fields::Three(a, b, c))
    }

    /// An unused field, then two numbers.
    #[tactic(auto, unfolding(lines::specs::Read::fields_at))]
    fn last_two(self) -> Result<Fields, BadByte>
        ensures { result ≡ fields_at Layout.LastTwo self.entry.text.now (self.entry.at + 1) }
    {
        self.field(0).unused()?;
        let v = self.field(1).number()?;
        let w = self.field(2).number()?;
        Ok(Fields::LastTwo(v, w))
    }

    /// Two numbers, then an unused field.
    #[tactic(auto, unfolding(lines::specs::Read::fields_at))]
    fn first_two(self) -> Result<Fields, BadByte>
        ensures { result ≡ fields_at Layout.FirstTwo self.entry.text.now (self.entry.at + 1) }
    {
        let a = self.field(0).number()?;
        let b = self.field(1).number()?;
        self.field(2).unused()?;
        Ok(Fields::FirstTwo(a, b))
    }

    /// A number, then a row count.
    #[tactic(auto, unfolding(lines::specs::Read::fields_at))]
    fn counted(self) -> Result<Fields, BadByte>
        ensures { result ≡ fields_at Layout.Counted self.entry.text.now (self.entry.at + 1) }
    {
        let table = self.field(0).number()?;
        let count = self.field(1).count()?;
        Ok(Fields::Counted(table, count))
    }

    /// A number or an unused field, then two unused fields.
    #[tactic(auto, unfolding(lines::specs::Read::fields_at))]
    fn single(self) -> Result<Fields, BadByte>
        ensures { result ≡ fields_at Layout.Single self.entry.text.now (self.entry.at + 1) }
    {
        let o = self.field(0).optional()?;
        self.field(1).unused()?;
        self.field(2).unused()?;
        Ok(Fields::Single(o))
    }

    /// The fields of a layout.
    // stays: a match on the value's own cases
    fn fields(self, layout: Layout) -> Result<Fields, BadByte>
        ensures { result ≡ fields_at layout self.entry.text.now (self.entry.at + 1) }
    {
        match layout {
            Layout::Three => self.three(),
            Layout::LastTwo => self.last_two(),
            Layout::FirstTwo => self.first_two(),
            Layout::Counted => self.counted(),
            Layout::Single => self.single(),
        }
    }

    /// The line.
    #[tactic(auto, unfolding(lines::specs::Read::line_at))]
    fn line(self) -> Result<Line, BadByte>
        ensures answer { result ≡ line_at self.entry.text.now self.entry.at }
        ensures within { OnOk result (self.entry.at + 17 ≤ length self.entry.text.now) }
    {
        let letter = self.text[self.at] as char;
        let Ok(layout) = Layout::try_from(letter) else {
            return Err(BadByte { place: self.at });
        };
        let fields = self.fields(layout)?;
        if self.text.get(self.at + 16) == Some(&b'\n') {
            Ok(Line { letter, fields })
        } else {
            Err(BadByte {
                place: self.at + 16,
            })
        }
    }
}

/// The line that begins at `at`, or the first byte that no line begun so can have: the place of the text's end where the line
/// is cut off.
// stays: callers have any text and any place; a `Start` is made only where the place lies in the text
pub fn read_line(text: &[u8], at: usize) -> Result<Line, BadByte>
    // line by line as the definition reads
    ensures answer { result ≡ line_at text.now at }
    // in other words: the line whose text stands there, or the end of the longest beginning of some line
    ensures form { LineRead text.now at result }
    // a line that is read lies in the text
    ensures within { OnOk result (at + 17 ≤ length text.now) }
{
    if at < text.len() {
        Start { text, at }.line()
    } else {
        Err(BadByte { place: at })
    }
}
