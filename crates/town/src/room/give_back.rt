//! Making room again of tables that a file was read into.
ghost use Rattle.std.specs.Prelude.{◌≡◌, vec_len, vec_capacity};

use super::Room;
use crate::filling::Filling;
use crate::tables::Tables;

impl<M: Copy> Tables<M> {
    /// Empties the tables; their memory stays.
    fn clear(&mut self)
        ensures ranks { (vec_len self.new.ranks ≡ 0) × (vec_capacity self.new.ranks ≡ vec_capacity self.old.ranks) }
        ensures names { (vec_len self.new.names ≡ 0) × (vec_capacity self.new.names ≡ vec_capacity self.old.names) }
        ensures spans { (vec_len self.new.spans ≡ 0) × (vec_capacity self.new.spans ≡ vec_capacity self.old.spans) }
        ensures arcs { (vec_len self.new.arcs ≡ 0) × (vec_capacity self.new.arcs ≡ vec_capacity self.old.arcs) }
    {
        self.ranks.clear();
        self.names.clear();
        self.spans.clear();
        self.arcs.clear();
    }
}

impl<M: Copy> Filling<M> {
    ghost use Rattle.town.specs.Reads.{limits_of};

    /// Room again, for as many places and arcs, whatever was read into the tables.
    pub(crate) fn into_room(self) -> Room<M>
        ensures { limits_of result ≡ self.limits }
    {
        let Filling { mut tables, limits } = self;
        tables.clear();
        Room {
            filling: Filling { tables, limits },
        }
    }
}
