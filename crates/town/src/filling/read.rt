//! Reading a file into the tables, record by record.
ghost use Rattle.std.specs.Prelude.{◌≡◌, ℕ, ◌≤◌, List, [], ◌∷◌, ◌++◌, vec_len, MatchResult, OnOk, OnErr};
ghost use Rattle.town_record.specs.Rules.{Faultless, Lowest};

use super::Filling;
use fault::file::FileFault;
use town_record::entry::Entry;
use town_record::entry::read::read_record;
use town_record::file_measure::FileMeasure;
use town_record::rule::Rule;

impl<M: FileMeasure> Filling<M> {
    ghost use Rattle.town.specs.Files.{seen, records, record_count, Accepted, Rejected};
    ghost use Rattle.town.specs.Holds.{Holds, Empty, SameRoom};

    /// Adds what a record says to the tables, or gives the lowest rule that it breaks.
    fn add_record(&mut self, record: &[u8]) -> Result<(), Rule>
        ensures holds { (rs : List (List ℕ)) → Holds M.FileMeasure.form rs self.old.tables →
            let f = M.FileMeasure.form in
            MatchResult result (λ _. Faultless f self.old.limits (seen rs) «record».now × Holds f (rs ++ «record».now ∷ []) self.new.tables)
            (λ rule. Lowest f self.old.limits (seen rs) «record».now rule) }
        ensures refused { OnErr result (self.new ≡ self.old) }
        ensures same_room { SameRoom self.old.tables self.new.tables }
        ensures limits { self.new.limits ≡ self.old.limits }
    {
        match read_record(record, self.so_far(), self.limits)? {
            Entry::Place(rank, name) => self.add_place(rank, name),
            Entry::Arc(arc) => self.add_arc(arc),
        }
        Ok(())
    }

    /// Adds the records of a file to empty tables, or gives the refusal.
    pub(crate) fn add_file(&mut self, file: &[u8]) -> Result<(), FileFault>
        requires { Empty self.old.tables }
        ensures cases { MatchResult result (λ _. Accepted M.FileMeasure.form self.old.limits file.now) (Rejected M.FileMeasure.form self.old.limits file.now) }
        ensures holds { OnOk result (Holds M.FileMeasure.form (records file.now (record_count file.now)) self.new.tables) }
        ensures some { OnOk result (1 ≤ vec_len self.new.tables.ranks) }
        ensures same_room { SameRoom self.old.tables self.new.tables }
        ensures limits { self.new.limits ≡ self.old.limits }
    {
        if file.is_empty() {
            return Err(FileFault::OutOfRoom(0));
        }
        let (records, rest) = file.as_chunks::<16>();
        for (i, record) in records.iter().enumerate() {
            self.add_record(record).map_err(|rule| rule.at(i))?;
        }
        if !rest.is_empty() {
            return Err(Rule::PartialRecord.at(records.len()));
        }
        Ok(())
    }
}
