// Run records that the next call must refuse, most of which no run has given: both listers answer them alike.
use crate::both::{Lent, end_agrees, offer};
use crate::random::CELLS;
use run::Run;
use second::Records;

// Whether both listers agree on forged records, where a column of `rows` rows is offered.
pub fn forged_agree(rows: u32, threshold: u32, column: &[i32]) -> bool {
    let columns = full(rows);
    forged(0, 0, threshold, false, column)
        && forged(1025, 0, threshold, false, column)
        && forged(rows, 41, threshold, false, column)
        && forged(rows, u32::MAX, threshold, true, column)
        && forged(rows, columns, threshold, true, column)
        && column_agrees(Run::growing(rows, columns, threshold), column)
}

// The greatest number of columns that the lent grid takes, at which Column refuses with 8.
fn full(rows: u32) -> u32 {
    (CELLS as u32).checked_div(rows).unwrap_or(0)
}

// Whether they agree on a record that is refused by Column and by End: 1, 9 or 6. A column of the wrong length changes
// nothing, since these come first.
fn forged(rows: u32, columns: u32, threshold: u32, ended: bool, column: &[i32]) -> bool {
    let run = Run {
        ended,
        ..Run::growing(rows, columns, threshold)
    };
    column_agrees(run, column) && column_agrees(run, &[]) && close_agrees(run)
}

// The column is offered with no room at all, so that nothing but a refusal agrees.
fn column_agrees(run: Run, column: &[i32]) -> bool {
    let mut grid = [7i32; CELLS];
    offer(run, column, &mut grid, Lent::none(), &Records::new()).is_some()
}

// The same at End.
fn close_agrees(run: Run) -> bool {
    end_agrees(run, &[7; CELLS], Lent::none(), &Records::new())
}
