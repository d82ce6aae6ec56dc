// On made-up runs, that both listers hand out the same at each column and at End, with refused calls in between.
use crate::both::{Lent, end_agrees, offer};
use crate::forged::forged_agree;
use crate::random::{CELLS, Drawn};
use lent::answers::{last_apart, narrow};
use run::Run;
use second::Records;

// Whether they agree on every call of a run, and on forged records of as many rows.
pub fn agrees(drawn: &Drawn) -> bool {
    let rows = narrow(drawn.rows);
    run::start(rows, drawn.threshold).is_ok_and(|run| run_agrees(run, drawn))
        && forged_agree(rows, drawn.threshold, drawn.column())
}

// Whether they agree on a run that has begun.
fn run_agrees(run: Run, drawn: &Drawn) -> bool {
    let mut grid = [0i32; CELLS];
    run_on(run, drawn, &mut grid).is_some_and(|run| ends(run, drawn, &grid))
}

// The run after all columns, offered one by one, if they agree on these.
fn run_on(run: Run, drawn: &Drawn, grid: &mut [i32]) -> Option<Run> {
    let (rows, heights) = (drawn.rows, drawn.heights());
    let mut now = run;
    if rows == 0 {
        return None;
    }
    for end in (rows..=heights.len()).step_by(rows) {
        now = column_turn(now, rows, &heights[..end], grid)?;
    }
    Some(now)
}

// Offers the last column of these cells: first so that it is refused, then as it should be. The run goes on with the
// record that the last of these calls gives.
fn column_turn(run: Run, rows: usize, heights: &[i32], grid: &mut [i32]) -> Option<Run> {
    let records = second::batch(rows, heights, run.threshold);
    let lent = Lent::enough(heights.len(), records.as_slice().len());
    let (_, offered) = last_apart(narrow(rows), heights);
    refused_turns(run, offered, grid, lent, &records)?;
    offer(run, offered, grid, lent, &records)
}

// A column of the wrong length, a work area a byte short, and a table a record short. Where nothing is handed out the
// last is no refusal; the column is then offered again to the record as it was.
fn refused_turns(
    run: Run,
    offered: &[i32],
    grid: &mut [i32],
    lent: Lent,
    records: &Records,
) -> Option<Run> {
    offer(
        run,
        offered.get(1..).unwrap_or(offered),
        grid,
        lent,
        records,
    )?;
    offer(run, offered, grid, lent.byte_short(), records)?;
    offer(run, offered, grid, lent.room_short(), records)
}

// Whether they agree on End: a byte short, a record short, and as it should be.
fn ends(run: Run, drawn: &Drawn, grid: &[i32]) -> bool {
    let heights = drawn.heights();
    let records = second::rest(drawn.rows, heights, run.threshold);
    let lent = Lent::enough(heights.len(), records.as_slice().len());
    end_agrees(run, grid, lent.byte_short(), &records)
        && end_agrees(run, grid, lent.room_short(), &records)
        && end_agrees(run, grid, lent, &records)
}
