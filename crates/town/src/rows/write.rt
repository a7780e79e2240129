//! Writing rows as a town file.
ghost use Rattle.std.specs.Prelude.{◌≡◌, ℕ, ◌+◌, ◌*◌, ◌<◌, ◌≤◌, List, [], ◌++◌, length, drop, vec_len, MatchResult};
ghost use borrow.Rule.Slice.PartMut.{put_mid};
ghost use Rattle.fault.specs.Causes.{Clear, Refused};
ghost use Rattle.fault.specs.Refusals.{atlas_refusal};
ghost use Rattle.town.specs.Reads.{Reads};
ghost use Rattle.town.specs.RowsGraph.{rows_file, rows_records};
ghost use Rattle.town.specs.Writes.{write_causes, Wrote};

use super::Rows;
use fault::atlas::AtlasFault;
use town_record::file_measure::FileMeasure;
use town_record::fill::{arc_record, place_record};

/// Writes a record at its place in a buffer.
///
/// The loops below number the records and do not zip them with `chunks_exact_mut`: tried, and while such chunks are lent an invariant cannot name the bytes written.
/// They are two: a place is written from two tables at once, an arc from one.
fn put_record(out: &mut [u8], index: usize, record: [u8; 16])
    requires { 16 * index + 16 ≤ length out.old }
    ensures { out.new ≡ put_mid (16 * index) 16 out.old «record» }
{
    let at = 16 * index;
    out[at..at + 16].copy_from_slice(&record);
}

impl<M: FileMeasure> Rows<M> {
    /// How many bytes the file has.
    #[tactic(auto, using(crate::proofs::Filing::file_long))]
    pub fn file_length(&self) -> usize
        ensures { result ≡ length (rows_file M.FileMeasure.form self.now) }
    {
        16 * (self.tables.ranks.len() + self.tables.arcs.len())
    }

    /// Writes the places.
    fn write_places(&self, out: &mut [u8])
        requires { 16 * (vec_len self.now.tables.ranks + vec_len self.now.tables.arcs) ≤ length out.old }
        ensures { Wrote (rows_records M.FileMeasure.form self.now) (vec_len self.now.tables.ranks) out.old out.new }
    {
        let places = self.tables.ranks.iter().zip(&self.tables.names);
        for (i, (rank, name)) in places.enumerate() {
            put_record(out, i, place_record(*rank, *name));
        }
    }

    /// Writes the arcs behind the places.
    fn write_arcs(&self, out: &mut [u8])
        requires { 16 * (vec_len self.now.tables.ranks + vec_len self.now.tables.arcs) ≤ length out.old }
        ensures { (was : List ℕ) → Wrote (rows_records M.FileMeasure.form self.now) (vec_len self.now.tables.ranks) was out.old →
            Wrote (rows_records M.FileMeasure.form self.now) (vec_len self.now.tables.ranks + vec_len self.now.tables.arcs) was out.new }
    {
        let places = self.tables.ranks.len();
        for (j, arc) in self.tables.arcs.iter().enumerate() {
            put_record(out, places + j, arc_record(*arc));
        }
    }

    /// Writes the file over the front of a buffer and gives its length; what lies past it stays.
    /// Whichever file the rows were read from, these are its bytes.
    #[tactic(auto, using(crate::proofs::Filing::file_long, crate::proofs::Filing::wrote_file))]
    pub fn write(&self, out: &mut [u8]) -> Result<usize, AtlasFault>
        ensures cases { let file = rows_file M.FileMeasure.form self.now in
            MatchResult result
            (λ n. Clear (write_causes (length file) (length out.old)) × (n ≡ length file) × (out.new ≡ file ++ drop (length file) out.old))
            (λ f. Refused (write_causes (length file) (length out.old)) (atlas_refusal f) × (out.new ≡ out.old)) }
        ensures round_trip { (file : List ℕ) → Reads M.FileMeasure.form file self.now → length file ≤ length out.old →
            out.new ≡ file ++ drop (length file) out.old }
    {
        let length = self.file_length();
        if out.len() < length {
            return Err(AtlasFault::TooShort(length));
        }
        self.write_places(out);
        self.write_arcs(out);
        Ok(length)
    }
}
