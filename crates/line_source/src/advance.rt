//! Taking lines from a buffered reader.
ghost use Rattle.std.specs.Prelude.{◌≡◌, ◌+◌, [], ◌∷◌, if◌then◌else◌, OnOk};
ghost use Rattle.line_source.specs.Sources.{kept, kept_lines, Begun};

use crate::LineSource;
use arrayvec::ArrayVec;
use std::io;
use std::io::{BufRead, ErrorKind};

impl LineSource {
    /// Whether the bytes kept are a line where the input has ended: an empty rest is none.
    #[tactic(auto, using(crate::proofs::Splitting::last_kept))]
    fn ends_in_line(&self) -> bool
        ensures { kept_lines (kept self.now) [] ≡ (if result then kept self.now ∷ [] else []) }
    {
        !self.line().is_empty()
    }

    /// Begins the next line, if it can be counted.
    fn begin(&mut self) -> io::Result<()>
        ensures { Begun self.old result self.new }
    {
        self.number = self.number.checked_add(1).ok_or_else(too_long)?;
        self.bytes = ArrayVec::new();
        Ok(())
    }

    /// Reads the next line, and answers false where the input has ended.
    ///
    /// The line is lent by `line` and not by this answer, so that its number can be asked for while it is held.
    pub fn advance<R: BufRead>(&mut self, reader: &mut R) -> io::Result<bool>
        ensures { OnOk result (self.new.number ≡ self.old.number + 1) }
    {
        self.begin()?;
        // It counts nothing: each loop is proved to end, and this one ends after as many parts at the latest.
        for _ in 0..u64::MAX {
            let part = reader.fill_buf()?;
            if part.is_empty() {
                return Ok(self.ends_in_line());
            }
            let length = part.len();
            let used = self.feed(part);
            reader.consume(used.unwrap_or(length));
            if used.is_some() {
                return Ok(true);
            }
        }
        Err(too_long())
    }
}

/// An input of more lines or parts than can be counted.
fn too_long() -> io::Error {
    io::Error::new(ErrorKind::InvalidData, "the input is too long")
}
