//! A name without its trailing spaces, as it is printed.
ghost use Rattle.std.specs.Prelude.{◌≡◌, Some};
ghost use Rattle.town_record.specs.Names.{Kept, shown_bytes};

use super::Name;
use std::{fmt, str};

impl Name {
    /// The bytes without the trailing spaces: 1 to 8, the last of them no space.
    pub fn trimmed(&self) -> &[u8]
        ensures { Kept self.now.bytes result.now }
    {
        self.bytes.trim_ascii_end()
    }

    /// The same as text: the bytes of a name are ASCII.
    #[tactic(auto, using(crate::proofs::Printed::kept_utf8, crate::proofs::Printed::kept_is_shown))]
    fn text(&self) -> &str
        ensures { result.now ≡ shown_bytes self.now.bytes }
    {
        str::from_utf8(self.trimmed()).unwrap()
    }
}

impl fmt::Display for Name {
    ghost output = { λ name. Some (shown_bytes name.bytes) };

    fn fmt<W: fmt::Write>(&self, f: &mut fmt::Formatter<W>) -> fmt::Result {
        f.pad(self.text())
    }
}
