//! The test of the order: order and home positions point back at each other, and the order rises with no rank 0.
ghost use Rattle.std.specs.Prelude.{◌≡◌, ◌≤◌, ◌↔◌, length, IsTrue};
ghost use Rattle.examine.specs.RowsInOrder.{RowInOrder};
ghost use Rattle.tables.specs.Rows.{order_at};
ghost use Rattle.tables.specs.Tests.{OrderTest, PointsBack, PointedTo, RanksRise};

use crate::memory::Memory;
use sketches::cells::row_of;
use tables::rows::OrderRow;

impl<R: Copy> Memory<'_, R> {
    /// The row of a position; past the table's end rank 0, which no position has.
    pub fn order_row(&self, position: usize) -> OrderRow
        ensures { result ≡ order_at self.now.order.now position }
    {
        let past = OrderRow { rank: 0, place: 0 };
        self.order.get(position).copied().unwrap_or(past)
    }

    /// Whether the row of a position names a place of the map, whose row names that position.
    fn points_back(&self, position: u16) -> bool
        ensures { IsTrue result ↔ PointsBack self.now.n self.now.order.now self.now.sketches.home.now position }
    {
        let place = self.order_row(position as usize).place;
        place < self.n && row_of(self.sketches.home, place).position == position
    }

    /// Whether the row of a place names a position of the order, whose row names that place.
    fn pointed_to(&self, place: u16) -> bool
        ensures { IsTrue result ↔ PointedTo self.now.n self.now.order.now self.now.sketches.home.now place }
    {
        let position = row_of(self.sketches.home, place).position;
        position < self.n && self.order_row(position as usize).place == place
    }

    /// Whether a position has a rank above 0, and the next one, if there is one, comes after it.
    fn rank_rises(&self, position: u16) -> bool
        ensures { IsTrue result ↔ RanksRise self.now.n self.now.order.now position }
    {
        let row = self.order_row(position as usize);
        let next = position as usize + 1;
        row.rank > 0 && (next >= self.n as usize || row < self.order_row(next))
    }

    /// Whether a number, read as a position and as a place, keeps the order.
    fn row_in_order(&self, i: u16) -> bool
        ensures { IsTrue result ↔ RowInOrder self.now.n self.now.order.now self.now.sketches.home.now i }
    {
        self.points_back(i) && self.pointed_to(i) && self.rank_rises(i)
    }

    /// Whether the tables of the order and of the places have a row for each of n places.
    fn has_the_rows(&self) -> bool
        ensures { IsTrue result ↔ ((self.now.n ≤ length self.now.order.now) × (self.now.n ≤ length self.now.sketches.home.now)) }
    {
        self.order.len() >= self.n as usize && self.sketches.home.len() >= self.n as usize
    }

    /// Whether both tables have their rows, and each number below n keeps the order.
    pub(crate) fn order_holds(&self) -> bool
        ensures { IsTrue result ↔ OrderTest self.now.n self.now.order.now self.now.sketches.home.now }
    {
        self.has_the_rows() && (0..self.n).all(|i| self.row_in_order(i))
    }
}
