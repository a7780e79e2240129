//! Reading a question line.
ghost use Rattle.std.specs.Prelude.{◌≡◌, ◌≤◌, ◌∷◌, length, IfOk, MatchResult};
ghost use Rattle.question.specs.Questions.{places_of, Reads};
ghost use Rattle.question.specs.Refused.{Refused, NotLettered};
ghost use Rattle.question.specs.Readers.{line_of, place_of};
ghost use Rattle.question_lines.specs.Words.{Lettering};

use super::Question;
use crate::places::Places;
use crate::places::read::read_places;
use crate::reader::WordReader;
use fault::line::LineFault;
use question_lines::word::LONGEST;

/// The numbers of a line whose letter takes so many.
#[tactic(auto, using(crate::proofs::Faults::all_put))]
fn numbers<const N: usize>(mut words: WordReader) -> Result<[u32; N], LineFault>
    requires first { place_of words ≡ 1 }
    requires few { N ≤ 2 }
    ensures read { MatchResult result (Lettering (line_of words.entry)) (NotLettered N N (line_of words.entry)) }
    ensures many { IfOk result (λ ns. length ns ≡ N) }
{
    let mut numbers = [0; N];
    for number in &mut numbers {
        *number = words.next_number()?;
    }
    words.end()?;
    Ok(numbers)
}

/// The limit and the places of a line whose letter takes both.
fn limit_and_places(mut words: WordReader) -> Result<(u32, Places), LineFault>
    requires { place_of words ≡ 1 }
    ensures { MatchResult result (λ p. Lettering (line_of words.entry) (p.0 ∷ places_of p.1)) (NotLettered 2 80 (line_of words.entry)) }
{
    let limit = words.next_number()?;
    let places = read_places(words)?;
    Ok((limit, places))
}

/// The question that a line asks, the line given without its newline.
///
/// A line that is not allowed is refused with the most leading bytes that it shares with an allowed line, or with 80 if it has more than 80 bytes.
#[tactic(auto, using(crate::proofs::Letters::refused_one, crate::proofs::Letters::refused_two, crate::proofs::Letters::refused_more))]
pub fn read(line: &[u8]) -> Result<Question, LineFault>
    ensures { MatchResult result (Reads line.now) (Refused line.now) }
{
    if line.len() > LONGEST {
        return Err(LineFault::NoForm(LONGEST));
    }
    if line.is_empty() {
        return Err(LineFault::NoForm(0));
    }
    let words = WordReader::after_letter(line);
    match line[0] as char {
        'K' => {
            let [k] = numbers::<1>(words)?;
            Ok(Question::Found(k))
        }
        'N' => {
            let [m] = numbers::<1>(words)?;
            Ok(Question::Sweep(m))
        }
        'B' => {
            let [m] = numbers::<1>(words)?;
            Ok(Question::TakeBack(m))
        }
        'S' => {
            let [place, limit] = numbers::<2>(words)?;
            Ok(Question::Sample { place, limit })
        }
        'U' => {
            let (limit, places) = limit_and_places(words)?;
            Ok(Question::JointSample { limit, places })
        }
        _ => Err(LineFault::NoForm(0)),
    }
}
