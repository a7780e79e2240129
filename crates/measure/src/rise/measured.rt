//! Rise as a measure: of two, the larger.
ghost use Rattle.measure.specs.RiseLaws.{rise_laws, rise_rows};

use super::Rise;
use crate::Measure;

impl Measure for Rise {
    type Row = u16;

    ghost laws = { rise_laws };

    ghost encoding = { rise_rows };

    fn zero() -> Rise {
        Rise::new(0)
    }

    fn join(self, other: Rise) -> Rise {
        self.max(other)
    }

    fn at_most(self, other: Rise) -> bool {
        self <= other
    }

    fn read(row: u16) -> Rise {
        Rise::new(row)
    }

    fn write(self) -> u16 {
        self.millimetres()
    }
}
