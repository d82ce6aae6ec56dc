// The tests before the work, on a run record and the lengths of what is offered and lent, in the paper's order.
ghost use Rattle.std.specs.Prelude.{◌≡◌};
ghost use Rattle.record.specs.Refusals.{first_of};
ghost use Rattle.running.specs.Running.{bad_record, run_tests, column_tests, end_tests};

use crate::Run;
use crate::records::held_cells;
use record::{Cell, Refusal};

// Whether a run record is refused by 9.
fn bad_record(run: Run, grid: usize) -> bool
    ensures { result ≡ bad_record run grid }
{
    let held = held_cells(run);
    grid < held || Cell::MAX_CELLS < held
}

// What every call tests first of its run record.
#[tactic(auto, unfolding(record::specs::Refusals::first_of))]
pub fn check_run(run: Run, grid: usize) -> Result<(), Refusal>
    ensures { result ≡ first_of (run_tests run grid) }
{
    record::refuse_if(record::bad_rows(run.rows), Refusal::Rows)?;
    record::refuse_if(bad_record(run, grid), Refusal::TakenCells)
}

// The tests of Column.
#[tactic(auto, unfolding(record::specs::Refusals::first_of, crate::specs::Running::column_tests))]
pub fn check_column(run: Run, offered: usize, grid: usize, work: usize) -> Result<(), Refusal>
    ensures { result ≡ first_of (column_tests run offered grid work) }
{
    let rows = words::index(run.rows);
    let n = held_cells(run) + rows;
    check_run(run, grid)?;
    record::refuse_if(run.ended, Refusal::Ended)?;
    record::refuse_if(offered != rows, Refusal::ColumnLength)?;
    record::refuse_if(Cell::MAX_CELLS < n, Refusal::Cells)?;
    record::refuse_if(grid < n, Refusal::GridFull)?;
    record::refuse_if(record::short_work(work, n), Refusal::Work)
}

// The tests of End.
#[tactic(auto, unfolding(record::specs::Refusals::first_of, crate::specs::Running::end_tests))]
pub fn check_end(run: Run, grid: usize, work: usize) -> Result<(), Refusal>
    ensures { result ≡ first_of (end_tests run grid work) }
{
    check_run(run, grid)?;
    record::refuse_if(run.ended, Refusal::Ended)?;
    record::refuse_if(record::short_work(work, held_cells(run)), Refusal::Work)
}
