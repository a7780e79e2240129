//! Seconds, rise and fares in a file: 4, 2 and 8 bytes.
//!
//! An `impl` each, and no generic one: with the number of bytes the type of the number differs, and the name by which it is read.
ghost use Rattle.std.specs.Prelude.{◌≡◌, if◌then◌else◌, Some, None, nat_le, refl};
ghost use Rattle.town_record.specs.Measures.{seconds_form, rise_form, fares_form};

use super::FileMeasure;
use measure::fares::Fares;
use measure::rise::Rise;
use measure::seconds::Seconds;

impl FileMeasure for Seconds {
    const BYTES: usize = 4;

    ghost BYTES = { 4 };

    ghost form = { seconds_form };

    ghost uses = { refl };

    fn read_bytes(field: [u8; 8]) -> Option<Seconds> {
        let [.., a, b, c, d] = field;
        Some(Seconds::new(u32::from_be_bytes([a, b, c, d])))
    }

    fn write_bytes(self) -> [u8; 8] {
        let [a, b, c, d] = self.count().to_be_bytes();
        [0, 0, 0, 0, a, b, c, d]
    }
}

impl FileMeasure for Rise {
    const BYTES: usize = 2;

    ghost BYTES = { 2 };

    ghost form = { rise_form };

    ghost uses = { refl };

    fn read_bytes(field: [u8; 8]) -> Option<Rise> {
        let [.., a, b] = field;
        Some(Rise::new(u16::from_be_bytes([a, b])))
    }

    fn write_bytes(self) -> [u8; 8] {
        let [a, b] = self.millimetres().to_be_bytes();
        [0, 0, 0, 0, 0, 0, a, b]
    }
}

/// A number of zones, if it is at most 65,535.
fn zones_of(number: u32) -> Option<u16>
    ensures { result ≡ (if nat_le number 65535 then Some number else None) }
{
    u16::try_from(number).ok()
}

impl FileMeasure for Fares {
    const BYTES: usize = 8;

    ghost BYTES = { 8 };

    ghost form = { fares_form };

    ghost uses = { refl };

    fn read_bytes(field: [u8; 8]) -> Option<Fares> {
        let [a, b, c, d, e, f, g, h] = field;
        let zones = zones_of(u32::from_be_bytes([a, b, c, d]))?;
        let seconds = Seconds::new(u32::from_be_bytes([e, f, g, h]));
        Some(Fares::new(zones, seconds))
    }

    fn write_bytes(self) -> [u8; 8] {
        let [a, b, c, d] = u32::from(self.zones()).to_be_bytes();
        let [e, f, g, h] = self.seconds().count().to_be_bytes();
        [a, b, c, d, e, f, g, h]
    }
}
