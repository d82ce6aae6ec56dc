// The run file read, all but the row of records: the answer of `read`, and the heights.
#![tactic(auto)]

ghost use Rattle.std.specs.Prelude.{◌++◌, ◌≡◌, ◌+◌, ◌*◌, ◌<◌, ◌≤◌, length, drop};
ghost use Rattle.record.specs.Refusals.{first_of};
ghost use Rattle.layout.specs.Layout.{heights_in};
ghost use Rattle.layout.specs.Promises.{miscounted, ReadAnswers};
ghost use Rattle.reader.specs.Inner.{file_grid_tests, header_tests, GridTaken};

use layout::{HeightsIn, ReadBack, RecordsIn};
use record::{Cell, Refusal};

// Whether the counts and offsets of the header contradict each other.
#[tactic(auto, unfolding(layout::specs::Promises::miscounted))]
fn is_miscounted(file: &[u8], cells: usize, n: usize) -> bool
    requires { (24 ≤ length file.now) × ((cells ≤ 1048576) × (n < 4294967296)) }
    ensures { result ≡ miscounted file.now cells n }
{
    let offset = 24 + 4 * cells;
    cells < n
        || words::get(file, 3) != 24
        || words::index(words::get(file, 4)) != offset
        || words::index(words::get(file, 5)) != offset + 16 * n
}

// The tests of the file's grid: 10 (under 24 bytes), 1, 3.
#[tactic(auto, unfolding(record::specs::Refusals::first_of, layout::specs::Promises::read_tests))]
fn check_file_grid(file: &[u8]) -> Result<(), Refusal>
    ensures { result ≡ first_of (file_grid_tests file.now) }
{
    record::refuse_if(file.len() < 24, Refusal::FileLength)?;
    let rows = words::get(file, 0);
    let cells = words::times(rows, words::get(file, 1));
    record::refuse_if(record::bad_rows(rows), Refusal::Rows)?;
    record::refuse_if(Cell::MAX_CELLS < cells, Refusal::Cells)
}

// The tests of the header: those of the grid, then 11 and 10 (total).
fn check_header(file: &[u8]) -> Result<(), Refusal>
    ensures { result ≡ first_of (header_tests file.now) }
{
    check_file_grid(file)?;
    let cells = words::times(words::get(file, 0), words::get(file, 1));
    let wrong = is_miscounted(file, cells, words::index(words::get(file, 2)));
    let total = words::index(words::get(file, 5));
    record::refuse_if(wrong, Refusal::FileCounts)?;
    record::refuse_if(file.len() != total, Refusal::FileLength)
}

// The answer of `read`, for so many lent heights and table entries.
fn judge(file: &[u8], heights: usize, table: usize) -> Result<ReadBack, Refusal>
    ensures { ReadAnswers file.now heights table result }
{
    check_header(file)?;
    let run = ReadBack {
        rows: words::get(file, 0),
        columns: words::get(file, 1),
        peaks: words::get(file, 2),
    };
    let cells = run.cells();
    let n = words::index(run.peaks);
    let grid = HeightsIn {
        bytes: file,
        at: 6,
        count: cells,
    };
    let records = RecordsIn {
        bytes: file,
        at: 6 + cells,
        count: n,
    };
    if let Some(index) = sound::first_unsound(grid, records) {
        return Err(Refusal::Unsound {
            index: words::narrow(index),
        });
    }
    let needed = words::narrow(cells);
    record::refuse_if(heights < cells, Refusal::Room { needed })?;
    record::refuse_if(table < n, Refusal::Table { needed: run.peaks })?;
    Ok(run)
}

// Fills in the first n heights of a file.
// As `HeightsIn` reads them: `heights_in` is that list, which the clause names.
fn take_heights(file: &[u8], heights: &mut [i32], n: usize)
    requires { (24 + 4 * n ≤ length file.now) × (n ≤ length heights.old) }
    ensures { heights.new ≡ heights_in file.now n ++ drop n heights.old }
{
    for i in 0..n {
        heights[i] = layout::signed(words::get(file, 6 + i));
    }
}

// Reading without the table, of which only the room counts: the answer and, unless it is a refusal, the heights.
pub fn take_grid(file: &[u8], heights: &mut [i32], table: usize) -> Result<ReadBack, Refusal>
    ensures { GridTaken file.now heights.old heights.new table result }
{
    let run = judge(file, heights.len(), table)?;
    take_heights(file, heights, run.cells());
    Ok(run)
}
