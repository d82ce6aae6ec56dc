// The refusals of the second lister, written as `second` is: what each call is refused by, if it is, as the number of
// section "What comes back", in the order it states.
//
// They go by numbers alone: the lengths of what is lent, the work area in numbers of 32 bits, the table in records. A
// refusal is its number and no enum, which would repeat that of the first lister.
#![tactic(auto)]

// The greatest number of rows.
const MAX_ROWS: u32 = 1024;

// The greatest number of cells.
const MAX_CELLS: u64 = 1048576;

// The greatest number of levels of an outline.
const MAX_LEVELS: u32 = 64;

// A run as a call finds it: what its record says, and the length of the lent grid.
#[derive(Clone, Copy)]
pub struct Grown {
    pub rows: u32,
    pub columns: u32,
    pub ended: bool,
    pub grid: usize,
}

// What a call is lent beside its grid: a work area, and room for what it lists; and how much of that room it needs.
#[derive(Clone, Copy)]
pub struct Lent {
    pub work: usize,
    pub room: usize,
    pub needed: usize,
}

// A list call: 1, 2, 3, 4, 5.
pub fn list_call(rows: u32, length: usize, lent: Lent) -> Result<(), u32> {
    start_call(rows)?;
    let cells = length as u64;
    refuse(2, !cells.is_multiple_of(rows as u64))?;
    refuse(3, cells > MAX_CELLS)?;
    lent.call(cells, 5)
}

// A start call: 1.
pub fn start_call(rows: u32) -> Result<(), u32> {
    refuse(1, rows == 0 || rows > MAX_ROWS)
}

// A column call: 1, 9, 6, 7, 3, 8, 4, 5. The length of the column is `offered`.
pub fn column_call(grown: Grown, offered: usize, lent: Lent) -> Result<(), u32> {
    grown.growing_call()?;
    refuse(7, offered as u64 != grown.rows as u64)?;
    let cells = cells_of(grown.rows, grown.columns as u64 + 1);
    refuse(3, cells > MAX_CELLS)?;
    refuse(8, cells > grown.grid as u64)?;
    lent.call(cells, 5)
}

// An end call: 1, 9, 6, 4, 5.
pub fn end_call(grown: Grown, lent: Lent) -> Result<(), u32> {
    grown.growing_call()?;
    lent.call(grown.cells(), 5)
}

// An outline call: 1, 9, 16, 14, 4, 15. The room for its text and what is needed are bytes.
pub fn outline_call(grown: Grown, levels: u32, lent: Lent) -> Result<(), u32> {
    grown.call()?;
    refuse(16, !grown.ended)?;
    refuse(14, levels == 0 || levels > MAX_LEVELS)?;
    lent.call(grown.cells(), 15)
}

// A check call: 1, 2, 3, 4, 17, for a cell that is a peak's or not. The first four are those of a list call, to which
// a table is never too short for no record.
pub fn check_call(rows: u32, length: usize, work: usize, peak: bool) -> Result<(), u32> {
    list_call(
        rows,
        length,
        Lent {
            work,
            room: 0,
            needed: 0,
        },
    )?;
    refuse(17, !peak)
}

// An account call: 1, 2, 3, 4, 17, 18. The rooms for a path and an island are numbers.
pub fn account_call(
    rows: u32,
    length: usize,
    work: usize,
    peak: bool,
    path: usize,
    island: usize,
) -> Result<(), u32> {
    check_call(rows, length, work, peak)?;
    refuse(18, path < length || island < length)
}

impl Grown {
    // What column and end calls refuse in a run record: 1, 9, 6.
    fn growing_call(self) -> Result<(), u32> {
        self.call()?;
        refuse(6, self.ended)
    }

    // What every call refuses in a run record: 1, 9.
    fn call(self) -> Result<(), u32> {
        start_call(self.rows)?;
        refuse(
            9,
            self.cells() > self.grid as u64 || self.cells() > MAX_CELLS,
        )
    }

    // The cells that the run has taken.
    fn cells(self) -> u64 {
        cells_of(self.rows, self.columns as u64)
    }
}

impl Lent {
    // The last two refusals of every call that lists: 4, and the number that says that the room is too short.
    fn call(self, cells: u64, short: u32) -> Result<(), u32> {
        refuse(4, cells > self.work as u64 / 4)?;
        refuse(short, self.room < self.needed)
    }
}

// The cells of so many columns. There are at most 2 ^ 32 columns, so that no product is too great for 64 bits.
fn cells_of(rows: u32, columns: u64) -> u64 {
    columns.saturating_mul(rows as u64)
}

// That refusal, where it applies.
fn refuse(number: u32, applies: bool) -> Result<(), u32> {
    if applies { Err(number) } else { Ok(()) }
}
