//! How refusals are printed.
ghost use Rattle.std.specs.Prelude.{Some};
ghost use Rattle.fault.specs.Refusals.{layer_text, refusal_text};

use super::{Layer, Refusal};
use std::fmt;

impl fmt::Display for Layer {
    ghost output = { λ l. Some (layer_text l) };

    fn fmt<W: fmt::Write>(&self, f: &mut fmt::Formatter<W>) -> fmt::Result {
        match self {
            Layer::File => write!(f, "file"),
            Layer::Atlas => write!(f, "atlas"),
            Layer::Line => write!(f, "line"),
        }
    }
}

impl fmt::Display for Refusal {
    ghost output = { λ r. Some (refusal_text r) };

    fn fmt<W: fmt::Write>(&self, f: &mut fmt::Formatter<W>) -> fmt::Result {
        write!(f, "{} {} {}", self.number, self.layer, self.at)
    }
}
