// The refusals at the limits, of section "Grids to check by". Both listers are asked: they differ also where an entry
// of the row has changed that should not.
//
// A work area for 1,048,576 cells has no room on a program's stack. That so many are not refused by 3 is asked without
// one, which gets 4; that they are accepted is asked of the C entry and of the column call by the tests in C++.
use crate::show::show_answer;
use lent::answers::start;
use lent::first;
use lent::first::{grown, taken};
use lent::told::Told;
use run::Run;
use second::{Record, Records};
use second_refusals::{Lent, column_call, list_call};
use std::io;

// The most cells of a run, and those with one column of 1,024 rows more.
const CELLS: usize = 1048576;

const CELLS_AND_COLUMN: usize = 1049600;

// Asks them all.
pub fn run(rt: &impl Print) -> io::Result<()> {
    show_answer(rt, "start, rows 1024", start(1024))?;
    show_answer(rt, "start, rows 1025", start(1025))?;
    list_rows(rt)?;
    many_cells(rt)?;
    ended(rt)
}

// One column of as many rows as there may be, and of one more. The room is exactly what is needed.
fn list_rows(rt: &impl Print) -> io::Result<()> {
    list_of(rt, "list, rows 1024", 1024, &[0; 1024], &mut [0; 16384])?;
    list_of(rt, "list, rows 1025", 1025, &[0; 1025], &mut [0; 16400])
}

// Lists a grid of one flat.
fn list_of(
    rt: &impl Print,
    name: &str,
    rows: u32,
    heights: &[i32],
    work: &mut [u8],
) -> io::Result<()> {
    let lent = Lent {
        work: work.len() / 4,
        room: 1,
        needed: 1,
    };
    let answer = list_call(rows, heights.len(), lent);
    let told = first::whole(rows, heights, 1, work, 1);
    show_answer(rt, name, agreed(told, answer))
}

// One grid serves all, so that it stands once on the stack.
fn many_cells(rt: &impl Print) -> io::Result<()> {
    let mut grid = [0; CELLS_AND_COLUMN];
    list_cells(rt, &grid)?;
    column_cells(rt, &mut grid)
}

fn list_cells(rt: &impl Print, grid: &[i32; CELLS_AND_COLUMN]) -> io::Result<()> {
    let full = "list, 1024 x 1024 cells and no work area";
    list_of(rt, full, 1024, &grid[..CELLS], &mut [])?;
    let above = "list, 1024 x 1024 cells and one column more";
    list_of(rt, above, 1024, &grid[..CELLS_AND_COLUMN], &mut [])
}

fn column_cells(rt: &impl Print, grid: &mut [i32; CELLS_AND_COLUMN]) -> io::Result<()> {
    let full = "column, 1024 x 1024 cells with it and no work area";
    offer(rt, full, taken(1024, 1023, false), &[0; 1024], grid)?;
    offer(
        rt,
        "column, one column more",
        taken(1024, 1024, false),
        &[0; 1024],
        grid,
    )
}

// A column to an ended run of the wrong length.
fn ended(rt: &impl Print) -> io::Result<()> {
    let name = "column to an ended run of the wrong length";
    offer(rt, name, taken(3, 5, true), &[0; 2], &mut [0; 18])
}

// Offers a column with no work area.
fn offer(
    rt: &impl Print,
    name: &str,
    run: Run,
    offered: &[i32],
    grid: &mut [i32],
) -> io::Result<()> {
    let lent = Lent {
        work: 0,
        room: 1,
        needed: 0,
    };
    let answer = column_call(grown(run, grid.len()), offered.len(), lent);
    let step = first::column(run, offered, grid, &mut [], 1);
    show_answer(rt, name, agreed(step.told, answer))
}

// What both listers answer, where a list of one flat is what an accepted call gives.
fn agreed(told: Told<Records>, answer: Result<(), u32>) -> Option<Result<(), u32>> {
    let mut flat = Records::new();
    flat.push(Record {
        cell: 0,
        height: 0,
        key: None,
        pass: None,
    });
    told.tells(answer, &flat).then_some(answer)
}
