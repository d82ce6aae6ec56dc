// The C entry: a whole grid listed for the control suite, heights and records passed as bytes in the file's layouts.
#![tactic(auto)]

ghost use Rattle.std.specs.Prelude.{◌≡◌};
ghost use Rattle.record.specs.Refusals.{first_of};
ghost use Rattle.suite.specs.Promises.{suite_tests, SuiteLists};
ghost use Rattle.suite.specs.Inner.{SuiteFlat};

use layout::HeightsIn;
use record::{Cell, Refusal};

// The tests before the work, in the paper's order.
// Its own list of tests (`suite_tests`): at the C entry a length is of bytes, a multiple of 4 x rows.
#[tactic(auto, unfolding(record::specs::Refusals::first_of, crate::specs::Promises::suite_tests))]
fn check(rows: u32, bytes: usize, work: usize) -> Result<(), Refusal>
    ensures { result ≡ first_of (suite_tests rows bytes work) }
{
    let cells = bytes / 4;
    record::refuse_if(record::bad_rows(rows), Refusal::Rows)?;
    record::refuse_if(
        record::uneven(bytes, 4 * words::index(rows)),
        Refusal::Length,
    )?;
    record::refuse_if(Cell::MAX_CELLS < cells, Refusal::Cells)?;
    record::refuse_if(record::short_work(work, cells), Refusal::Work)
}

// The call without the table, of which only the room counts: the records are left in the work area.
fn flat(
    rows: u32,
    heights: &[u8],
    threshold: u32,
    work: &mut [u8],
    room: usize,
) -> Result<u32, Refusal>
    ensures { SuiteFlat rows heights.now threshold work.old room work.new result }
{
    check(rows, heights.len(), work.len())?;
    let grid = HeightsIn {
        bytes: heights,
        at: 0,
        count: heights.len() / 4,
    };
    survey::made(rows, grid, threshold, work, room)
}

// Lists a whole grid: heights and records are bytes, the work area has 16 bytes for a cell, and the answer is the
// record count, or minus the refusal number.
#[unsafe(no_mangle)]
pub extern "C" fn mayexoton_list(
    rows: u32,
    heights: &[u8],
    threshold: u32,
    work: &mut [u8],
    table: &mut [u8],
) -> i64
    ensures { SuiteLists rows heights.now threshold work.old work.new
        table.old table.new result }
{
    let handed = flat(rows, heights, threshold, work, table.len() / 16);
    layout::hand_out(table, work, heights.len() / 4, handed)
}
