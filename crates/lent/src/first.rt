// The first lister, asked through its public calls, each lent a real row of records, with its records in the second
// one's form.
use crate::row;
use crate::row::{Row, marked};
use crate::told::Told;
use record::Refusal;
use run::{Run, Step};
use second::Records;
use second_refusals::Grown;

// The run record after a call, and what the call tells.
#[derive(Clone, Copy)]
pub struct Stepped {
    pub run: Run,
    pub told: Told<Records>,
}

// The whole-grid call, with a row of `room` entries.
// Three calls with their own arguments: a closure over the lent row would be as long at each.
pub fn whole(
    rows: u32,
    heights: &[i32],
    threshold: u32,
    work: &mut [u8],
    room: usize,
) -> Told<Records> {
    let mut row = marked();
    let handed = list::list(rows, heights, threshold, work, &mut row[..room.min(64)]);
    answered(handed, &row)
}

// The column call.
pub fn column(
    run: Run,
    offered: &[i32],
    grid: &mut [i32],
    work: &mut [u8],
    room: usize,
) -> Stepped {
    let mut row = marked();
    let step = run::column(run, offered, grid, work, &mut row[..room.min(64)]);
    told_by(step, &row)
}

// The end call.
pub fn end(run: Run, grid: &[i32], work: &mut [u8], room: usize) -> Stepped {
    let mut row = marked();
    let step = run::end(run, grid, work, &mut row[..room.min(64)]);
    told_by(step, &row)
}

// A run record at T = 1.
pub fn taken(rows: u32, columns: u32, ended: bool) -> Run {
    Run {
        ended,
        ..Run::growing(rows, columns, 1)
    }
}

// A run as the second lister's refusals go by it, with a grid of so many cells lent to it.
pub fn grown(run: Run, grid: usize) -> Grown {
    Grown {
        rows: run.rows,
        columns: run.columns,
        ended: run.ended,
        grid,
    }
}

// What a call on a run tells.
fn told_by(step: Step, row: &Row) -> Stepped {
    Stepped {
        run: step.run,
        told: answered(step.handed, row),
    }
}

// What a call tells that hands out records, those copied out of the row.
fn answered(handed: Result<u32, Refusal>, row: &Row) -> Told<Records> {
    let answer = handed.map(|count| row::records(row, count as usize));
    Told {
        answer,
        kept: row::kept(row, handed.unwrap_or(0) as usize),
    }
}
