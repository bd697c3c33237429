//! A text that is read line by line.
ghost use Rattle.std.specs.Prelude.{◌≡◌, ℕ, ◌+◌, ◌≤◌, length, IfErr, OnOk};
ghost use Rattle.lines.specs.Read.{line_at};
ghost use Rattle.texts.specs.Fault.{in_form, text_value};
ghost use Rattle.texts.specs.Reader.{left_by};

use super::fault::TextFault;
use columns::read::read_line;
use lines::line::Line;

/// A text, and the place where its next line begins. The place may lie past the text's end.
#[derive(Drop)]
pub struct Reader<'a> {
    pub text: &'a [u8],
    pub at: usize,
}

impl Reader<'_> {
    /// Reads the next line, or says 15 with its place.
    pub fn line(&mut self) -> Result<Line, TextFault>
        ensures answer { result ≡ in_form (line_at self.old.text.now self.old.at) }
        // a line that is read is passed, and at a refusal the reader stays
        ensures left { self.new ≡ left_by result self.old }
        ensures within { OnOk result (self.new.at ≤ length self.new.text.now) }
        ensures near { IfErr result (λ f. text_value f ≤ self.old.at + 16) }
    {
        let line = read_line(self.text, self.at)?;
        self.at += 17;
        Ok(line)
    }
}
