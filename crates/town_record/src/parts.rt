//! The parts that both kinds of records have: unused bytes, and eight bytes at the end.
ghost use Rattle.std.specs.Prelude.{◌≡◌};
ghost use Rattle.std.specs.List.{between};
ghost use Rattle.town_record.specs.Bytes.{all_zero};

/// Whether all bytes are zero.
pub(crate) fn all_zero(bytes: &[u8]) -> bool
    ensures { result ≡ all_zero bytes.now }
{
    bytes.iter().all(|b| *b == 0)
}

/// The eight bytes from 8 on: a name, or the field of a length.
pub(crate) fn last_eight(record: &[u8; 16]) -> [u8; 8]
    ensures { result ≡ between 8 16 «record».now }
{
    let [.., a, b, c, d, e, f, g, h] = *record;
    [a, b, c, d, e, f, g, h]
}
