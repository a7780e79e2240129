//! Measures that can stand in a file.
ghost use Rattle.std.specs.Prelude.{◌≡◌, ℕ, ◌-◌, drop};
ghost use Rattle.town_record.specs.FileForms.{FileForm};

use measure::Measure;

pub mod measures;

/// A measure whose lengths can be written into a file and read back.
///
/// A length has a field of eight bytes there, of which the measure uses the rightmost ones. Numbers are big-endian.
pub trait FileMeasure: Measure {
    /// How many of the eight bytes are used: the rightmost ones.
    const BYTES: usize;

    /// The same number, for contracts and proofs.
    ghost BYTES: { ℕ };

    /// How lengths stand in a file, with both ways there and back.
    ghost form: { FileForm Self };

    /// The length in a field, if its used bytes hold one.
    fn read_bytes(field: [u8; 8]) -> Option<Self>
        ensures { result ≡ form.length_of (drop (8 - form.used) field) };

    /// A field whose used bytes are those of this length.
    fn write_bytes(self) -> [u8; 8]
        ensures { drop (8 - form.used) result ≡ form.bytes_of self };

    /// As many bytes are used as the form says.
    ghost uses: { BYTES ≡ form.used };
}
