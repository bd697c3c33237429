//! The text of a build list: an H line (tables, joins, steps), a T line (the triangle), then one line a step.
ghost use Rattle.std.specs.Prelude.{◌≡◌, ◌+◌, ◌≤◌, length, IfOk, IfErr, OnOk};
ghost use Rattle.texts.specs.Fault.{text_value};
ghost use Rattle.texts.specs.Reader.{past, past_lines};
ghost use Rattle.texts.specs.ListRead.{head_at, triangle_at, step_at, steps_read, list_read, end_at};
ghost use Rattle.texts.specs.ListLaw.{SameText, RefusedText, Follows};

use super::fault::TextFault;
use super::reader::Reader;
use columns::read::read_line;
use lines::line::Fields;
use theory::step::{Step, Triangle};

/// What an H line says: the number of tables, and the number of steps.
#[derive(Clone, Copy)]
pub struct Head {
    pub tables: u32,
    pub steps: usize,
}

/// A build list: the number of tables, the triangle, and the steps after it.
// stays: it has the steps themselves; `Heading` has how many of the lent records are steps
#[derive(Clone, Copy)]
pub struct BuildList<'a> {
    pub tables: u32,
    pub triangle: Triangle,
    pub steps: &'a [Step],
}

/// A list that was read: its tables, its triangle, how many step records it fills, and where its text ends.
#[derive(Clone, Copy, PartialEq, Eq, Debug)]
pub struct Heading {
    pub tables: u32,
    pub triangle: Triangle,
    pub steps: usize,
    pub end: usize,
}

impl Reader<'_> {
    /// The H line, judged in the order 15, 16, 17, 9.
    // stays: here and below what differs is the pattern: a reader that took it as a closure would need the same match, an `Option` around
    // it, and a contract in terms of the closure's. That the reader has passed a line, only its own clause says to a caller
    fn head(&mut self, room: usize) -> Result<Head, TextFault>
        ensures answer { result ≡ head_at self.old.text.now self.old.at room }
        ensures room { IfOk result (λ h. h.steps ≤ room) }
        ensures onward { OnOk result (self.new ≡ past self.old) }
    {
        let at = self.at;
        let line = self.line()?;
        match (line.letter, line.fields) {
            ('H', Fields::Three(tables, joins, steps)) => {
                if !(3..=64).contains(&tables)
                    || !(3..=2016).contains(&joins)
                    || steps != joins - 3
                {
                    return Err(TextFault::OutOfLimits { place: at });
                }
                let steps = steps as usize;
                if room < steps {
                    return Err(TextFault::TooFew { needed: steps });
                }
                Ok(Head { tables, steps })
            }
            _ => Err(TextFault::Misplaced { place: at }),
        }
    }

    /// The T line.
    fn triangle(&mut self) -> Result<Triangle, TextFault>
        ensures answer { result ≡ triangle_at self.old.text.now self.old.at }
        ensures onward { OnOk result (self.new ≡ past self.old) }
    {
        let at = self.at;
        let line = self.line()?;
        match (line.letter, line.fields) {
            ('T', Fields::Three(a, b, c)) => Ok(Triangle { a, b, c }),
            _ => Err(TextFault::Misplaced { place: at }),
        }
    }

    /// An N line or an E line.
    fn step(&mut self) -> Result<Step, TextFault>
        ensures answer { result ≡ step_at self.old.text.now self.old.at }
        ensures onward { OnOk result (self.new ≡ past self.old) }
    {
        let at = self.at;
        let line = self.line()?;
        match (line.letter, line.fields) {
            ('N', Fields::Three(u, v, w)) => Ok(Step::Node { u, v, w }),
            ('E', Fields::LastTwo(v, w)) => Ok(Step::Edge { v, w }),
            _ => Err(TextFault::Misplaced { place: at }),
        }
    }

    /// As many step lines as there are records, laid into them.
    fn steps(&mut self, records: &mut [Step]) -> Result<(), TextFault>
        ensures effect { steps_read self.old.text.now self.old.at (length records.old) 0 records.old
            ≡ record { told = result; records = records.new } }
        ensures onward { OnOk result (self.new ≡ past_lines (length records.old) self.old) }
    {
        for record in records.iter_mut() {
            *record = self.step()?;
        }
        Ok(())
    }

    /// A whole list, its steps laid into the first records.
    fn list(&mut self, records: &mut [Step]) -> Result<Heading, TextFault>
        ensures { list_read self.old.text.now self.old.at records.old ≡ record { told = result; records = records.new } }
    {
        let head = self.head(records.len())?;
        let triangle = self.triangle()?;
        self.steps(&mut records[..head.steps])?;
        Ok(Heading {
            tables: head.tables,
            triangle,
            steps: head.steps,
            end: self.at,
        })
    }

    /// Nothing may follow where the reader stands: 15 where what follows is not in form, else 16.
    pub fn end(&self) -> Result<(), TextFault>
        ensures answer { result ≡ end_at self.now.text.now self.now.at }
        // accepted, the text ends there; refused, something follows, a line in form where 16 is told
        ensures follows { Follows self.now.text.now self.now.at result }
        ensures near { IfErr result (λ f. text_value f ≤ self.now.at + 16) }
    {
        if self.at == self.text.len() {
            return Ok(());
        }
        read_line(self.text, self.at)?;
        Err(TextFault::Misplaced { place: self.at })
    }
}

/// The build list whose text begins at `at`: its steps go into the first records, and the answer says where its text ends.
pub fn read_list(text: &[u8], at: usize, records: &mut [Step]) -> Result<Heading, TextFault>
    // line by line as the definition reads; earlier lines keep their effect, and other records keep their contents
    ensures answer { result ≡ (list_read text.now at records.old).told }
    ensures filled { records.new ≡ (list_read text.now at records.old).records }
    // a list that is accepted stands there as it would be written
    ensures same { SameText text.now at records.old records.new result }
    // one that is refused has the fault told, and nothing is amiss before it
    ensures refused { RefusedText text.now at (length records.old) result }
    // no place or amount named is far beyond the text
    ensures near { IfErr result (λ f. text_value f ≤ at + length text.now + 2013) }
{
    let mut reader = Reader { text, at };
    reader.list(records)
}

/// Nothing may follow at `at`: 15 where what follows is not in form, else 16.
pub fn check_end(text: &[u8], at: usize) -> Result<(), TextFault>
    ensures answer { result ≡ end_at text.now at }
    // accepted, the text ends there; refused, something follows, a line in form where 16 is told
    ensures follows { Follows text.now at result }
    ensures near { IfErr result (λ f. text_value f ≤ at + 16) }
{
    Reader { text, at }.end()
}
