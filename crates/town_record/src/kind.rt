//! The two kinds of records, each told by a letter.
ghost use Rattle.town_record.specs.Kinds.{Decodes};

use crate::rule::Rule;

/// The letter of a place record.
pub(crate) const PLACE: u8 = b'P';

/// The letter of an arc record.
pub(crate) const ARC: u8 = b'A';

/// Whether a record lists a place or an arc.
#[derive(Clone, Copy, PartialEq, Eq, Debug)]
pub(crate) enum Kind {
    Place,
    Arc,
}

impl TryFrom<u8> for Kind {
    type Error = Rule;

    ghost try_from_gives = { Decodes };

    fn try_from(letter: u8) -> Result<Kind, Rule> {
        match letter {
            PLACE => Ok(Kind::Place),
            ARC => Ok(Kind::Arc),
            _ => Err(Rule::BadByte),
        }
    }
}
