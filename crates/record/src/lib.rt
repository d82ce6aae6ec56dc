// The cell and record types, their constants and constructors, level, height and prominence, and the refusals.
#![tactic(auto)]

ghost use Rattle.std.specs.Prelude.{true, false, not, ◌≡◌, ◌*◌, ◌%◌, eqb, ltb, MatchResult};
ghost use Rattle.relief.specs.Heights.{level_of};
ghost use Rattle.scale.specs.Prominence.{is_mark, Prominent};
ghost use Rattle.record.specs.Records.{with_key, without_key};
ghost use Rattle.record.specs.Refusals.{told_of, bad_rows};

// What a cell of the grid holds: a height, or the blank mark.
// A mark and no `Option`: a lent row of heights holds it (document 01), and definitions speak of it (`is_mark`).
#[derive(Clone, Copy, PartialEq, Eq)]
pub struct Cell {
    pub height: i32,
}

impl Cell {
    // The blank mark, which is no height.
    pub const BLANK: i32 = -2147483648;
    // The most rows of a run.
    pub const MAX_ROWS: u32 = 1024;
    // The most cells of a run.
    pub const MAX_CELLS: usize = 1048576;

    // Whether the cell is blank.
    pub fn is_blank(self) -> bool
        ensures { result ≡ is_mark self.height }
    {
        self.height == Cell::BLANK
    }
}

// The record of a peak: its cell, its height, its key height and its pass cell.
// Marks and no `Option`: so are the four numbers of a record in document 01 and in a file (`fields_of`).
#[derive(Clone, Copy, PartialEq, Eq)]
pub struct Peak {
    pub cell: u32,
    pub height: i32,
    pub key: i32,
    pub pass: u32,
}

impl Peak {
    // What a record without a key height holds in its place.
    pub const MISSING_KEY: i32 = -2147483648;
    // What a record without a key height holds as its pass cell.
    pub const MISSING_PASS: u32 = 4294967295;

    // The record of a peak that has a key height.
    pub fn with_key(cell: u32, height: i32, key: i32, pass: u32) -> Peak
        ensures { result ≡ with_key cell height key pass }
    {
        Peak {
            cell,
            height,
            key,
            pass,
        }
    }

    // The record of a peak that has none.
    pub fn without_key(cell: u32, height: i32) -> Peak
        ensures { result ≡ without_key cell height }
    {
        Peak {
            cell,
            height,
            key: Peak::MISSING_KEY,
            pass: Peak::MISSING_PASS,
        }
    }

    // Whether the peak has a key height. The key field alone decides: a record with one mark of the two is not sound.
    pub fn has_key(self) -> bool
        ensures { result ≡ not (is_mark self.key) }
    {
        self.key != Peak::MISSING_KEY
    }
}

// What a level is above its height.
const RAISE: i64 = 2147483648;

// The level of a height. The sum is made in 64 bits: half of the levels are above every signed 32-bit number.
// No `From`: std's types on both sides are not this crate's, and `bits` of `layout` is another number of a height.
pub fn level(height: i32) -> u32
    ensures { result ≡ level_of height }
{
    (height as i64 + RAISE) as u32
}

// The height at a level, the blank mark at level 0. That there is but one is the claim `LevelInjective`.
pub fn height(level: u32) -> i32
    ensures { level_of result ≡ level }
{
    (level as i64 - RAISE) as i32
}

// The prominence of a height over a key height, 0 where the key height is not below the height. The difference is made
// in 64 bits: two heights may lie 4,294,967,294 apart, which no signed 32-bit number holds.
pub fn prominence(height: i32, key: i32) -> u32
    ensures { Prominent height key result }
{
    if height < key {
        0
    } else {
        (height as i64 - key as i64) as u32
    }
}

// Why a call is refused: the cases of document 01's table "What comes back", then those of document 02, in order of
// their numbers, with what they also return.
// A number needed fits 32 bits: no file is longer than 24 + 20 x 1,048,576 bytes.
#[derive(Clone, Copy, Debug, PartialEq, Eq)]
pub enum Refusal {
    Rows,
    Length,
    Cells,
    Work,
    Table { needed: u32 },
    Ended,
    ColumnLength,
    GridFull,
    TakenCells,
    FileLength,
    FileCounts,
    Unsound { index: u32 },
    Room { needed: u32 },
    Levels,
    TextRoom,
    NotEnded,
    NoPeak,
    AccountRoom,
}

// One test of a call: its refusal, where it applies. Tests stand in the order of the paper, each with a `?`: the first
// that applies refuses the call.
pub fn refuse_if(applies: bool, refusal: Refusal) -> Result<(), Refusal>
    ensures { MatchResult result (λ _. applies ≡ false) (λ r. (r ≡ refusal) × (applies ≡ true)) }
{
    if applies { Err(refusal) } else { Ok(()) }
}

// Whether a number of rows is refused by 1.
pub fn bad_rows(rows: u32) -> bool
    ensures { result ≡ bad_rows rows }
{
    rows == 0 || Cell::MAX_ROWS < rows
}

// Whether so many numbers do not make whole columns of `rows`. For no rows the answer is the definition's, which no
// call comes to: 1 is before it in every order.
pub fn uneven(numbers: usize, rows: usize) -> bool
    ensures { result ≡ not (eqb (numbers % rows) 0) }
{
    if rows == 0 {
        numbers != 0
    } else {
        numbers % rows != 0
    }
}

// Whether a work area of so many bytes is refused by 4. The bytes are divided: 16 times the cells may not fit.
pub fn short_work(work: usize, cells: usize) -> bool
    ensures { result ≡ ltb work (16 * cells) }
{
    work / 16 < cells
}

// The number of a refusal in the documents.
// No `From`: the pages name this function with its clause, and a second way to the number would be its twin.
pub fn number(refusal: Refusal) -> u32
    ensures { result ≡ (told_of refusal).number }
{
    match refusal {
        Refusal::Rows => 1,
        Refusal::Length => 2,
        Refusal::Cells => 3,
        Refusal::Work => 4,
        Refusal::Table { .. } => 5,
        Refusal::Ended => 6,
        Refusal::ColumnLength => 7,
        Refusal::GridFull => 8,
        Refusal::TakenCells => 9,
        Refusal::FileLength => 10,
        Refusal::FileCounts => 11,
        Refusal::Unsound { .. } => 12,
        Refusal::Room { .. } => 13,
        Refusal::Levels => 14,
        Refusal::TextRoom => 15,
        Refusal::NotEnded => 16,
        Refusal::NoPeak => 17,
        Refusal::AccountRoom => 18,
    }
}
