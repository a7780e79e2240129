//! How the refusal of a line is printed.
ghost use Rattle.std.specs.Prelude.{Some};
ghost use Rattle.question.specs.Printed.{told_text};

use fault::refusal::Refusal;
use std::fmt;

/// A refusal, of whatever layer, and the number of the line that it answers: counted from 1, and 0 for the town file.
#[derive(Clone, Copy, PartialEq, Eq, Debug)]
pub struct ToldRefusal {
    pub refusal: Refusal,
    pub line: u64,
}

impl fmt::Display for ToldRefusal {
    ghost output = { λ t. Some (told_text t) };

    fn fmt<W: fmt::Write>(&self, f: &mut fmt::Formatter<W>) -> fmt::Result {
        let refusal = self.refusal;
        let line = self.line;
        write!(f, "! {refusal} at line {line}")
    }
}
