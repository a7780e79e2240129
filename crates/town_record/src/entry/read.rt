//! Reading a record: what it says, or the lowest rule that it breaks.
ghost use Rattle.std.specs.Prelude.{◌≡◌, true, MatchResult};
ghost use Rattle.town_record.specs.Entries.{Says, Judged};
ghost use Rattle.town_record.specs.Parts.{is_place, is_arc, length_bytes};
ghost use Rattle.town_record.specs.Rules.{Faultless, Lowest};

use super::Entry;
use crate::arc_row::ArcRow;
use crate::before::{Before, Limits};
use crate::file_measure::FileMeasure;
use crate::kind::Kind;
use crate::name::Name;
use crate::parts::{all_zero, last_eight};
use crate::rule::Rule;

/// What the record of a place says, or the lowest rule that it breaks.
fn read_place<M: FileMeasure>(
    record: &[u8; 16],
    before: Before,
    limits: Limits,
) -> Result<Entry<M>, Rule>
    requires { is_place «record».now ≡ true }
    ensures { Judged M.FileMeasure.form limits before «record».now result }
{
    if !all_zero(&record[1..4]) {
        return Err(Rule::BadByte);
    }
    let name = Name::new(last_eight(record)).ok_or(Rule::BadByte)?;
    let [_, _, _, _, a, b, c, d, ..] = *record;
    let rank = u32::from_be_bytes([a, b, c, d]);
    if rank == 0 {
        return Err(Rule::BadValue);
    }
    if before.arcs > 0 {
        return Err(Rule::OutOfOrder);
    }
    if before.places >= limits.places {
        return Err(Rule::OutOfRoom);
    }
    Ok(Entry::Place(rank, name))
}

/// The length that the record of an arc lists, if its used bytes hold one.
fn read_length<M: FileMeasure>(record: &[u8; 16]) -> Option<M>
    ensures { result ≡ M.FileMeasure.form.length_of (length_bytes M.FileMeasure.form.used «record».now) }
{
    M::read_bytes(last_eight(record))
}

/// What the record of an arc says, or the lowest rule that it breaks.
fn read_arc<M: FileMeasure>(
    record: &[u8; 16],
    before: Before,
    limits: Limits,
) -> Result<Entry<M>, Rule>
    requires { is_arc «record».now ≡ true }
    ensures { Judged M.FileMeasure.form limits before «record».now result }
{
    let unused = 16 - M::BYTES;
    if !all_zero(&record[1..2]) || !all_zero(&record[6..8]) || !all_zero(&record[8..unused]) {
        return Err(Rule::BadByte);
    }
    let [_, _, f0, f1, t0, t1, ..] = *record;
    let from = u16::from_be_bytes([f0, f1]);
    let to = u16::from_be_bytes([t0, t1]);
    if before.places <= usize::from(from) || before.places <= usize::from(to) {
        return Err(Rule::BadValue);
    }
    let length = read_length::<M>(record).ok_or(Rule::BadValue)?;
    if to < before.last_to {
        return Err(Rule::OutOfOrder);
    }
    if before.arcs >= limits.arcs {
        return Err(Rule::OutOfRoom);
    }
    Ok(Entry::Arc(ArcRow { from, to, length }))
}

/// What a record says, or the lowest rule that it breaks, given what stands before it in the file and how much a file may hold.
#[tactic(auto, using(crate::proofs::Told::no_letter))]
pub fn read_record<M: FileMeasure>(
    record: &[u8],
    before: Before,
    limits: Limits,
) -> Result<Entry<M>, Rule>
    ensures { MatchResult result (λ e. Faultless M.FileMeasure.form limits before «record».now × Says M.FileMeasure.form «record».now e) (Lowest M.FileMeasure.form limits before «record».now) }
{
    let whole = record.as_array().ok_or(Rule::PartialRecord)?;
    match Kind::try_from(whole[0])? {
        Kind::Place => read_place(whole, before, limits),
        Kind::Arc => read_arc(whole, before, limits),
    }
}
