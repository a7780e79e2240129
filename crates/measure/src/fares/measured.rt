//! Fares as a measure: zones are added, and with them the seconds, up to the largest fare.
ghost use Rattle.measure.specs.FaresLaws.{fares_laws, fares_rows};

use super::Fares;
use crate::Measure;
use crate::fares_row::FaresRow;
use crate::seconds::Seconds;

impl Measure for Fares {
    type Row = FaresRow;

    ghost laws = { fares_laws };

    ghost encoding = { fares_rows };

    fn zero() -> Fares {
        Fares::new(0, Seconds::new(0))
    }

    fn join(self, other: Fares) -> Fares {
        match self.zones().checked_add(other.zones()) {
            Some(zones) => Fares::new(zones, self.seconds().join(other.seconds())),
            None => Fares::new(u16::MAX, Seconds::new(u32::MAX)),
        }
    }

    fn at_most(self, other: Fares) -> bool {
        self <= other
    }

    fn read(row: FaresRow) -> Fares {
        Fares::new(row.zones, Seconds::new(row.seconds))
    }

    fn write(self) -> FaresRow {
        FaresRow {
            zones: self.zones(),
            seconds: self.seconds().count(),
        }
    }
}
