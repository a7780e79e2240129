//! The lines of an input, one at a time.
#![tactic(auto)]

ghost use Rattle.std.specs.Prelude.{◌≤◌, length};

use arrayvec::ArrayVec;

mod advance;
mod feed;

/// The line that is being read: its first 81 bytes at most, and its number, counted from 1.
///
/// So many bytes tell that a line is longer than 80; the rest of a long line is skipped.
#[derive(Drop)]
pub struct LineSource {
    bytes: ArrayVec<u8, 81>,
    number: u64,
    ghost bounded: { length bytes.items ≤ 81 },
}
