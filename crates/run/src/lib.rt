// A growing run: Start, Column and End, over the flat core, and the lent row of records filled from it.
#![tactic(auto)]

ghost use Rattle.std.specs.Prelude.{◌≡◌, ◌+◌, ◌≤◌, length};
ghost use Rattle.std.proofs.Math.Seq.{paste};
ghost use Rattle.run.specs.Promises.{Starts, Columns, Ends};
ghost use Rattle.running.specs.Inner.{GoodColumn, GoodEnd};
ghost use Rattle.run.specs.Inner.{ColumnsFlat, EndsFlat};

use record::{Peak, Refusal};
pub use running::Run;

// The run record after a call, and the answer: how many peaks are handed out, or why it is refused.
#[derive(Clone, Copy, PartialEq, Eq)]
pub struct Step {
    pub run: Run,
    pub handed: Result<u32, Refusal>,
}

// Starts a run of zero columns.
#[tactic(auto, unfolding(record::specs::Refusals::first_of))]
pub fn start(rows: u32, threshold: u32) -> Result<Run, Refusal>
    ensures { Starts rows threshold result }
{
    record::refuse_if(record::bad_rows(rows), Refusal::Rows)?;
    Ok(Run::growing(rows, 0, threshold))
}

// Copies a column behind the taken cells.
fn copy(grid: &mut [i32], at: usize, column: &[i32])
    requires { at + length column.now ≤ length grid.old }
    ensures { grid.new
        ≡ paste grid.old at column.now (length column.now) }
{
    // A loop, since `copy_from_slice` calls C's `memmove`, which an archive for C would then need from outside.
    for i in 0..column.len() {
        grid[at + i] = column[i];
    }
}

// Column once the tests before the work have passed.
fn column_good(run: Run, column: &[i32], grid: &mut [i32], work: &mut [u8], room: usize) -> Step
    requires { GoodColumn run (length column.now) (length grid.old) (length work.old) }
    ensures { ColumnsFlat run column.now grid.old grid.new
        work.old room work.new result.run result.handed }
{
    let rows = words::index(run.rows);
    let held = running::held_cells(run);
    let n = held + rows;
    copy(grid, held, column);
    heights::load(work, grid, n);
    let count = survey::closing(work, n, held, rows, run.threshold);
    let handed = table::room_answer(count, room);
    Step {
        run: running::after_column(run, handed),
        handed,
    }
}

// End once the tests before the work have passed.
fn end_good(run: Run, grid: &[i32], work: &mut [u8], room: usize) -> Step
    requires { GoodEnd run (length grid.now) (length work.old) }
    ensures { EndsFlat run grid.now work.old room work.new
        result.run result.handed }
{
    let held = running::held_cells(run);
    heights::load(work, grid, held);
    let count = survey::rest(work, held, words::index(run.rows), run.threshold);
    let handed = table::room_answer(count, room);
    Step {
        run: running::after_end(run, handed),
        handed,
    }
}

// Column without the table, of which only the room counts: the records are left in the work area.
// A refusal hands the run back as it came, so no `?` stands here.
pub fn column_flat(run: Run, column: &[i32], grid: &mut [i32], work: &mut [u8], room: usize) -> Step
    ensures { ColumnsFlat run column.now grid.old grid.new
        work.old room work.new result.run result.handed }
{
    match running::check_column(run, column.len(), grid.len(), work.len()) {
        Err(refusal) => Step {
            run,
            handed: Err(refusal),
        },
        Ok(()) => column_good(run, column, grid, work, room),
    }
}

// End without the table, of which only the room counts: the records are left in the work area.
// A refusal hands the run back as it came, so no `?` stands here.
pub fn end_flat(run: Run, grid: &[i32], work: &mut [u8], room: usize) -> Step
    ensures { EndsFlat run grid.now work.old room work.new
        result.run result.handed }
{
    match running::check_end(run, grid.len(), work.len()) {
        Err(refusal) => Step {
            run,
            handed: Err(refusal),
        },
        Ok(()) => end_good(run, grid, work, room),
    }
}

// Offers one column to a run.
pub fn column(
    run: Run,
    column: &[i32],
    grid: &mut [i32],
    work: &mut [u8],
    table: &mut [Peak],
) -> Step
    ensures { Columns run column.now grid.old grid.new
        work.old work.new table.old table.new result.run result.handed }
{
    let step = column_flat(run, column, grid, work, table.len());
    if let Ok(count) = step.handed {
        table::fill(
            table,
            work,
            running::held_cells(step.run),
            words::index(count),
        );
    }
    step
}

// Ends a run.
// `column` fills its table alike: a function for the two would take all that both clauses speak of, for five lines.
pub fn end(run: Run, grid: &[i32], work: &mut [u8], table: &mut [Peak]) -> Step
    ensures { Ends run grid.now work.old work.new table.old
        table.new result.run result.handed }
{
    let step = end_flat(run, grid, work, table.len());
    if let Ok(count) = step.handed {
        table::fill(
            table,
            work,
            running::held_cells(step.run),
            words::index(count),
        );
    }
    step
}
