//! A sound memory to start from: the town of five with every place swept and k = 2, and changes of one number in it.
use examine::memory::Memory;
use fault::memory_test::MemoryTest;
use sketches::view::Sketches;
use tables::rows::{Cell, HomeRow, MISSING, OrderRow};

/// The tables with the numbers that go with them, and how many rows of each table are lent.
// Arrays with the number lent beside, not Vecs: a memory is copied for each change, and a Vec would need an allocator there
// and a test that the copy was made.
#[derive(Clone, Copy)]
pub(crate) struct TestMemory {
    pub(crate) n: u16,
    pub(crate) swept: u16,
    pub(crate) used: u32,
    pub(crate) order: [OrderRow; 6],
    pub(crate) home: [HomeRow; 6],
    pub(crate) cells: [Cell<u32>; 16],
    pub(crate) order_rows: usize,
    pub(crate) home_rows: usize,
    pub(crate) cell_rows: usize,
    pub(crate) map_places: Option<usize>,
}

/// One number changed: at which row, and to what.
// Data, not closures: `Rank(0, 0)` says all there is to say, and a list of closures would need a clause that each may be
// called.
#[derive(Clone, Copy)]
pub(crate) enum Change {
    Rank(usize, u32),
    Place(usize, u16),
    Position(usize, u16),
    First(usize, u32),
    Last(usize, u32),
    Entries(usize, u32),
    Owner(usize, u16),
    Noted(usize, u16),
    Before(usize, u32),
    After(usize, u32),
    Places(u16),
    Swept(u16),
    Used(u32),
    OrderRows(usize),
    HomeRows(usize),
    CellRows(usize),
    MapPlaces(usize),
}

fn order_row(rank: u32, place: u16) -> OrderRow {
    OrderRow { rank, place }
}

fn home_row(position: u16, first: u32, last: u32, entries: u32) -> HomeRow {
    HomeRow {
        position,
        first,
        last,
        entries,
    }
}

fn cell(owner: u16, position: u16, length: u32, before: u32, after: u32) -> Cell<u32> {
    Cell {
        owner,
        position,
        length,
        before,
        after,
    }
}

fn order() -> [OrderRow; 6] {
    [
        order_row(1_000_000_000, 1),
        order_row(1_000_000_000, 3),
        order_row(2_147_483_648, 2),
        order_row(3_000_000_000, 0),
        order_row(4_000_000_000, 4),
        order_row(0, 9),
    ]
}

fn home() -> [HomeRow; 6] {
    [
        home_row(3, 0, 10, 3),
        home_row(0, 1, 11, 3),
        home_row(2, 5, 8, 2),
        home_row(1, 6, 9, 2),
        home_row(4, 2, 13, 4),
        home_row(9, 7, 7, 7),
    ]
}

fn cells() -> [Cell<u32>; 16] {
    [
        cell(0, 0, 100, MISSING, 3),
        cell(1, 0, 0, MISSING, 4),
        cell(4, 0, 110, MISSING, 7),
        cell(0, 1, 300, 0, 10),
        cell(1, 1, 200, 1, 11),
        cell(2, 1, 50, MISSING, 8),
        cell(3, 1, 0, MISSING, 9),
        cell(4, 1, 310, 2, 12),
        cell(2, 2, 0, 5, MISSING),
        cell(3, 2, 50, 6, MISSING),
        cell(0, 3, 0, 3, MISSING),
        cell(1, 3, 100, 4, MISSING),
        cell(4, 3, 10, 7, 13),
        cell(4, 4, 0, 12, MISSING),
        cell(5, 77, 7, 3, 3),
        cell(5, 77, 7, 0, 0),
    ]
}

/// The town of five with every place swept: 14 entries in 16 cells, and a surplus row in the other tables.
pub(crate) fn town() -> TestMemory {
    TestMemory {
        n: 5,
        swept: 5,
        used: 14,
        order: order(),
        home: home(),
        cells: cells(),
        order_rows: 6,
        home_rows: 6,
        cell_rows: 16,
        map_places: Some(5),
    }
}

/// The town of five with nothing swept.
pub(crate) fn founded() -> TestMemory {
    let mut memory = town();
    memory.swept = 0;
    memory.used = 0;
    for row in &mut memory.home[..5] {
        *row = HomeRow::empty(row.position);
    }
    for cell in &mut memory.cells {
        cell.owner = 5;
    }
    memory
}

impl TestMemory {
    /// Makes one change of a row; past the table's end, none.
    fn change_row(&mut self, change: Change) {
        match change {
            Change::Rank(i, x) if i < 6 => self.order[i].rank = x,
            Change::Place(i, x) if i < 6 => self.order[i].place = x,
            Change::Position(i, x) if i < 6 => self.home[i].position = x,
            Change::First(i, x) if i < 6 => self.home[i].first = x,
            Change::Last(i, x) if i < 6 => self.home[i].last = x,
            Change::Entries(i, x) if i < 6 => self.home[i].entries = x,
            Change::Owner(i, x) if i < 16 => self.cells[i].owner = x,
            Change::Noted(i, x) if i < 16 => self.cells[i].position = x,
            Change::Before(i, x) if i < 16 => self.cells[i].before = x,
            Change::After(i, x) if i < 16 => self.cells[i].after = x,
            _ => (),
        }
    }

    /// Makes one change.
    fn change(&mut self, change: Change) {
        match change {
            Change::Places(x) => self.n = x,
            Change::Swept(x) => self.swept = x,
            Change::Used(x) => self.used = x,
            Change::OrderRows(x) => self.order_rows = x,
            Change::HomeRows(x) => self.home_rows = x,
            Change::CellRows(x) => self.cell_rows = x,
            Change::MapPlaces(x) => self.map_places = Some(x),
            _ => self.change_row(change),
        }
    }

    /// The memory with these changes made.
    pub(crate) fn with(mut self, changes: &[Change]) -> TestMemory {
        for change in changes {
            self.change(*change);
        }
        self
    }

    /// The sketches, as far as rows are lent.
    pub(crate) fn sketches(&self) -> Sketches<'_, '_, u32> {
        Sketches {
            home: &self.home[..self.home_rows.min(6)],
            cells: &self.cells[..self.cell_rows.min(16)],
        }
    }

    /// The memory, as far as rows are lent.
    pub(crate) fn memory(&self) -> Memory<'_, u32> {
        Memory {
            n: self.n,
            swept: self.swept,
            used: self.used,
            order: &self.order[..self.order_rows.min(6)],
            sketches: self.sketches(),
        }
    }

    /// The first test that fails, if any.
    pub(crate) fn first_failing(&self) -> Result<(), MemoryTest> {
        self.memory().examine(self.map_places)
    }
}
