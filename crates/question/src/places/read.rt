//! Reading the places of a line.
ghost use Rattle.std.specs.Prelude.{◌≤◌, length, MatchResult};
ghost use Rattle.question.specs.Questions.{places_of};
ghost use Rattle.question.specs.Refused.{NoWords};
ghost use Rattle.question.specs.Readers.{line_of, place_of};
ghost use Rattle.question_lines.specs.Words.{Words};

use super::Places;
use crate::reader::WordReader;
use fault::line::LineFault;

/// The places that the words of a line name, from the next one to its end: at least one.
pub(crate) fn read_places(mut words: WordReader) -> Result<Places, LineFault>
    requires { 3 ≤ place_of words }
    ensures { MatchResult result (λ p. Words (line_of words.entry) (place_of words.entry) (places_of p) (length (line_of words.entry))) (NoWords (line_of words.entry) (place_of words.entry)) }
{
    let mut places = Places::one(words.next_number()?);
    while !words.is_at_end() {
        places.push(words.next_number()?);
    }
    Ok(places)
}
