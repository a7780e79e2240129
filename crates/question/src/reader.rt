//! Reading the words of a line one after another.
ghost use Rattle.std.specs.Prelude.{◌≡◌, ◌≤◌, ◌↔◌, length, IsTrue, OnErr, MatchResult};

use fault::line::LineFault;
use question_lines::word::{end, word};

/// A line of at most 80 bytes, and the place up to which it was read.
#[derive(Clone, Copy)]
pub(crate) struct WordReader<'a> {
    line: &'a [u8],
    at: usize,
    pub ghost short: { length line.now ≤ 80 },
    pub ghost within: { at ≤ length line.now },
}

impl<'a> WordReader<'a> {
    ghost use Rattle.question_lines.specs.Faults.{NoWordAt, PastEnd};
    ghost use Rattle.question.specs.Readers.{line_of, place_of};
    ghost use Rattle.question_lines.specs.Words.{Word};

    /// The words after the letter of a line.
    pub(crate) fn after_letter(line: &'a [u8]) -> WordReader<'a>
        requires some { 1 ≤ length line.now }
        requires short { length line.now ≤ 80 }
        ensures line { line_of result ≡ line.now }
        ensures place { place_of result ≡ 1 }
    {
        WordReader { line, at: 1 }
    }

    /// Whether nothing of the line is left.
    pub(crate) fn is_at_end(&self) -> bool
        ensures { IsTrue result ↔ (place_of self.now ≡ length (line_of self.now)) }
    {
        self.at == self.line.len()
    }

    /// Reads the next word, and gives its number.
    pub(crate) fn next_number(&mut self) -> Result<u32, LineFault>
        ensures line { line_of self.new ≡ line_of self.old }
        ensures read { MatchResult result (λ n. Word (line_of self.old) (place_of self.old) n (place_of self.new)) (NoWordAt (line_of self.old) (place_of self.old)) }
        ensures unread { OnErr result (self.new ≡ self.old) }
    {
        let (number, next) = word(self.line, self.at)?;
        self.at = next;
        Ok(number)
    }

    /// Tells that nothing follows, or refuses the line at the byte that does.
    pub(crate) fn end(&self) -> Result<(), LineFault>
        ensures { MatchResult result (λ _. length (line_of self.now) ≤ place_of self.now) (PastEnd (line_of self.now) (place_of self.now)) }
    {
        end(self.line, self.at)
    }
}
