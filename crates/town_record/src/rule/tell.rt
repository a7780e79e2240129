//! The fault that tells a broken rule.
ghost use Rattle.std.specs.Prelude.{◌≡◌};
ghost use Rattle.town_record.specs.Rules.{fault};

use super::Rule;
use fault::file::FileFault;

impl Rule {
    /// The fault of breaking this rule at a record, counted from 0.
    /// Not a `From`: the fault needs the record beside the rule, and a pair of both would read no plainer.
    pub fn at(self, record: usize) -> FileFault
        ensures { result ≡ fault self «record» }
    {
        match self {
            Rule::PartialRecord => FileFault::PartialRecord(record),
            Rule::BadByte => FileFault::BadByte(record),
            Rule::BadValue => FileFault::BadValue(record),
            Rule::OutOfOrder => FileFault::OutOfOrder(record),
            Rule::OutOfRoom => FileFault::OutOfRoom(record),
        }
    }
}
