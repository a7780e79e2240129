//! Making a name of eight bytes, and those bytes.
ghost use Rattle.std.specs.Prelude.{◌≡◌, true, false, MatchOption};
ghost use Rattle.town_record.specs.Rules.{good_name, all_printable};

use super::Name;

const SPACE: u8 = b' ';

/// Whether all bytes are printable: 20 to 7E hexadecimal.
fn all_printable(bytes: &[u8]) -> bool
    ensures { result ≡ all_printable bytes.now }
{
    bytes.iter().all(|b| matches!(b, 0x20..=0x7e))
}

impl Name {
    /// The name of these bytes, if they are one.
    pub fn new(bytes: [u8; 8]) -> Option<Name>
        ensures { MatchOption result (good_name bytes ≡ false) (λ n. (good_name bytes ≡ true) × (n.bytes ≡ bytes)) }
    {
        if bytes[0] == SPACE || !all_printable(&bytes) {
            return None;
        }
        Some(Name { bytes })
    }

    /// All eight bytes.
    pub fn bytes(self) -> [u8; 8]
        ensures { result ≡ self.bytes }
    {
        self.bytes
    }
}
