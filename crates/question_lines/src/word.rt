//! The words of a line: a space and a number each.
ghost use Rattle.std.specs.Prelude.{◌≡◌, ◌≤◌, length, drop, MatchResult};
ghost use Rattle.question_lines.specs.Faults.{NoWordAt, PastEnd};
ghost use Rattle.question_lines.specs.Words.{Word};

use crate::number::number_from;
use fault::line::LineFault;

/// The most bytes that a line may have.
pub const LONGEST: usize = 80;

/// What stands in a line from a place on.
fn from_place(line: &[u8], at: usize) -> &[u8]
    ensures { result.now ≡ drop at line.now }
{
    line.get(at..).unwrap_or(&[])
}

/// The number of the word at a place of a line, and where the word ends.
///
/// The line and the place are two parameters here: this holds of every line and place, also of those that no reader of words comes to.
pub fn word(line: &[u8], at: usize) -> Result<(u32, usize), LineFault>
    ensures { MatchResult result (λ w. Word line.now at w.0 w.1) (NoWordAt line.now at) }
{
    match from_place(line, at) {
        // A space as the last of 80 bytes leaves no room for a digit.
        [b' ', ..] if at + 1 >= LONGEST => Err(LineFault::NoForm(at)),
        [b' ', digit @ b'0'..=b'9', rest @ ..] => {
            let (number, more) = number_from(*digit, rest);
            Ok((number, at + 2 + more))
        }
        [b' ', ..] => Err(LineFault::NoForm(at + 1)),
        _ => Err(LineFault::NoForm(at)),
    }
}

/// Tells that nothing follows, or refuses the line at the byte that does.
pub fn end(line: &[u8], at: usize) -> Result<(), LineFault>
    ensures { MatchResult result (λ _. length line.now ≤ at) (PastEnd line.now at) }
{
    if at < line.len() {
        return Err(LineFault::NoForm(at));
    }
    Ok(())
}
