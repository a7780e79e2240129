//! Reading a town file.
ghost use Rattle.std.specs.Prelude.{◌≡◌, MatchResult};
ghost use Rattle.town.specs.Files.{Accepted, Rejected};
ghost use Rattle.town.specs.Reads.{Reads, limits_of};

use super::Rows;
use crate::rejection::Rejection;
use crate::room::Room;
use town_record::file_measure::FileMeasure;

impl<M: FileMeasure> Rows<M> {
    /// The rows of a file that has no fault; otherwise its first fault, with the room as it was.
    pub fn read(file: &[u8], room: Room<M>) -> Result<Rows<M>, Rejection<M>>
        ensures { MatchResult result (λ rows. Accepted M.FileMeasure.form (limits_of room) file.now × Reads M.FileMeasure.form file.now rows)
            (λ e. Rejected M.FileMeasure.form (limits_of room) file.now e.fault × (limits_of e.room ≡ limits_of room)) }
    {
        let mut filling = room.filling;
        // A match, and no `map_err`: each arm uses the tables up in its own way.
        match filling.add_file(file) {
            Ok(()) => Ok(Rows {
                tables: filling.tables,
            }),
            Err(fault) => Err(Rejection {
                fault,
                room: filling.into_room(),
            }),
        }
    }
}
