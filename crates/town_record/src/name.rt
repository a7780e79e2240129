//! The name of a place.
ghost use Rattle.std.specs.Prelude.{◌≡◌, true, length, ◌≢◌, slice_index};
ghost use Rattle.town_record.specs.Rules.{all_printable};

pub mod show;
pub mod text;

/// A name: eight printable bytes, the first never a space, trailing spaces fill up.
#[derive(Clone, Copy, PartialEq, Eq, Debug)]
pub struct Name {
    bytes: [u8; 8],
    ghost sized: { length bytes ≡ 8 },
    ghost front: { slice_index bytes 0 ≢ 32 },
    ghost printed: { all_printable bytes ≡ true },
}
