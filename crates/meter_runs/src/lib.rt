// Calls for the benchmark to time beside the list: a column offered to a run, and an ended run outlined. They are there
// to be measured from C++, which lends no row of records (`Peak` has no layout of C): a batch goes as bytes in the
// file's layout, as it does at the C entry, and the answer is one signed number. A C interface for all calls will
// replace them.
#![tactic(auto)]

ghost use Rattle.std.specs.Prelude.{◌≡◌, ◌+◌, ◌*◌};
ghost use Rattle.running.specs.Running.{growing_run, with_end};
ghost use Rattle.meter_runs.specs.Promises.{MeterColumns, MeterOutlines};

use run::Run;

// ---- a column

// The cells of so many columns and one more.
fn cells_with(rows: u32, columns: u32) -> usize
    ensures { result ≡ columns * rows + rows }
{
    words::times(columns, rows) + words::index(rows)
}

// Offers one column to a run that has not ended: `run::column`. The answer is the record count, or minus the refusal
// number; the caller counts the columns taken.
#[unsafe(no_mangle)]
pub extern "C" fn meter_column(
    rows: u32,
    columns: u32,
    threshold: u32,
    column: &[i32],
    grid: &mut [i32],
    work: &mut [u8],
    table: &mut [u8],
) -> i64
    ensures { MeterColumns (growing_run rows columns threshold) column.now grid.old
        grid.new work.old work.new table.old table.new result }
{
    let run = Run::growing(rows, columns, threshold);
    let step = run::column_flat(run, column, grid, work, table.len() / 16);
    layout::hand_out(table, work, cells_with(rows, columns), step.handed)
}

// ---- the outline

// Outlines a run that has ended: `outline::outline`. The answer is the number of bytes, or minus the refusal number.
#[unsafe(no_mangle)]
pub extern "C" fn meter_outline(
    rows: u32,
    columns: u32,
    threshold: u32,
    levels: u32,
    grid: &[i32],
    work: &mut [u8],
    text: &mut [u8],
) -> i64
    ensures { MeterOutlines (with_end (growing_run rows columns threshold)) grid.now levels
        work.old work.new text.old text.new result }
{
    let run = Run {
        ended: true,
        ..Run::growing(rows, columns, threshold)
    };
    layout::answer_number(outline::outline(run, grid, levels, work, text))
}
