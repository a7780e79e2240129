//! The bytes of a line, part by part.
ghost use Rattle.std.specs.Prelude.{◌≡◌, ◌==◌, ◌≤◌, [], ◌++◌, length, position, take};
ghost use Rattle.line_source.specs.Sources.{kept, Fed};

use crate::LineSource;
use arrayvec::ArrayVec;

impl LineSource {
    /// Before the first line.
    pub fn new() -> LineSource
        ensures { (kept result ≡ []) × (result.number ≡ 0) }
    {
        LineSource {
            bytes: ArrayVec::new(),
            number: 0,
        }
    }

    /// The line, without its newline.
    pub fn line(&self) -> &[u8]
        ensures bytes { result.now ≡ kept self.now }
        ensures short { length result.now ≤ 81 }
    {
        self.bytes.as_slice()
    }

    /// The number of the line, counted from 1.
    pub fn number(&self) -> u64
        ensures { result ≡ self.now.number }
    {
        self.number
    }

    /// Keeps more bytes of the line, as many as there is room for.
    #[tactic(auto, using(crate::proofs::Splitting::keep_more))]
    fn keep(&mut self, bytes: &[u8])
        ensures bytes { kept self.new ≡ take 81 (kept self.old ++ bytes.now) }
        ensures number { self.new.number ≡ self.old.number }
    {
        let fitting = bytes.len().min(self.bytes.remaining_capacity());
        self.bytes.try_extend_from_slice(&bytes[..fitting]).unwrap();
    }

    /// Adds a part of the input to the line. Where the part ends the line, tells how many bytes of the part that took, the newline among them.
    #[tactic(auto, using(crate::proofs::Splitting::fed_on, crate::proofs::Splitting::fed_end))]
    pub fn feed(&mut self, part: &[u8]) -> Option<usize>
        ensures fed { Fed self.old part.now result self.new }
        ensures number { self.new.number ≡ self.old.number }
    {
        match first_newline(part) {
            Some(end) => {
                self.keep(&part[..end]);
                Some(end + 1)
            }
            None => {
                self.keep(part);
                None
            }
        }
    }
}

/// Where the first newline of a part stands.
fn first_newline(part: &[u8]) -> Option<usize>
    ensures { result ≡ position (λ byte. byte == 10) part.now }
{
    part.iter().position(|byte| *byte == b'\n')
}
