//! Writing a question as its line.
ghost use Rattle.std.specs.Prelude.{Some};
ghost use Rattle.question_lines.specs.Lines.{spaced};
ghost use Rattle.question.specs.Questions.{places_of, written};

use super::Question;
use crate::places::Places;
use std::fmt;

impl fmt::Display for Question {
    ghost output = { λ q. Some (written q) };

    fn fmt<W: fmt::Write>(&self, f: &mut fmt::Formatter<W>) -> fmt::Result {
        match self {
            Question::Found(k) => write!(f, "K {k}"),
            Question::Sweep(m) => write!(f, "N {m}"),
            Question::TakeBack(m) => write!(f, "B {m}"),
            Question::Sample { place, limit } => write!(f, "S {place} {limit}"),
            Question::JointSample { limit, places } => write!(f, "U {limit}{places}"),
        }
    }
}

/// Each place after a space.
impl fmt::Display for Places {
    ghost output = { λ p. Some (spaced (places_of p)) };

    fn fmt<W: fmt::Write>(&self, f: &mut fmt::Formatter<W>) -> fmt::Result {
        for place in self.as_slice() {
            write!(f, " {place}")?;
        }
        Ok(())
    }
}
