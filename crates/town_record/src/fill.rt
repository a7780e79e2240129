//! Writing the record of a place and of an arc.
ghost use Rattle.std.specs.Prelude.{◌≡◌, ◌-◌, ◌++◌, replicate};
ghost use Rattle.town_record.specs.Parts.{place_record, arc_record};

use crate::arc_row::ArcRow;
use crate::file_measure::FileMeasure;
use crate::kind::{ARC, PLACE};
use crate::name::Name;

/// The record of a place.
pub fn place_record(rank: u32, name: Name) -> [u8; 16]
    ensures { result ≡ place_record rank name.bytes }
{
    let [a, b, c, d] = rank.to_be_bytes();
    let [n0, n1, n2, n3, n4, n5, n6, n7] = name.bytes();
    [PLACE, 0, 0, 0, a, b, c, d, n0, n1, n2, n3, n4, n5, n6, n7]
}

/// The field of a length: zeros, and the used bytes at the right.
fn length_field<M: FileMeasure>(length: M) -> [u8; 8]
    ensures { result ≡ replicate (8 - M.FileMeasure.form.used) 0 ++ M.FileMeasure.form.bytes_of «length» }
{
    let mut field = length.write_bytes();
    field[..8 - M::BYTES].fill(0);
    field
}

/// The record of an arc.
pub fn arc_record<M: FileMeasure>(arc: ArcRow<M>) -> [u8; 16]
    ensures { result ≡ arc_record M.FileMeasure.form arc }
{
    let [f0, f1] = arc.from.to_be_bytes();
    let [t0, t1] = arc.to.to_be_bytes();
    let [a, b, c, d, e, f, g, h] = length_field(arc.length);
    [ARC, 0, f0, f1, t0, t1, 0, 0, a, b, c, d, e, f, g, h]
}
