//! Seconds as a measure: sums, held at the largest number.
ghost use Rattle.measure.specs.SecondsLaws.{seconds_laws, seconds_rows};

use super::Seconds;
use crate::Measure;

impl Measure for Seconds {
    type Row = u32;

    ghost laws = { seconds_laws };

    ghost encoding = { seconds_rows };

    fn zero() -> Seconds {
        Seconds::new(0)
    }

    fn join(self, other: Seconds) -> Seconds {
        Seconds::new(self.count().saturating_add(other.count()))
    }

    fn at_most(self, other: Seconds) -> bool {
        self <= other
    }

    fn read(row: u32) -> Seconds {
        Seconds::new(row)
    }

    fn write(self) -> u32 {
        self.count()
    }
}
