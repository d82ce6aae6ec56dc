// The grids of section "Grids to check by", in its order.
use crate::limits;
use crate::show::{show_list, show_program, show_run};
use second::BLANK;
use std::io;

// Runs them all.
pub fn run(rt: &impl Print) -> io::Result<()> {
    one_row(rt)?;
    extremes(rt)?;
    runs(rt)?;
    limits::run(rt)?;
    three_rows(rt)
}

// The one-row grids.
fn one_row(rt: &impl Print) -> io::Result<()> {
    single(rt)?;
    summits(rt)?;
    flats(rt)
}

fn single(rt: &impl Print) -> io::Result<()> {
    let empty: [i32; 0] = [];
    let blank = [BLANK];
    let zero = [0];
    show_list(rt, "no columns", 1, &empty, 1)?;
    show_list(rt, "blank alone", 1, &blank, 1)?;
    show_list(rt, "0", 1, &zero, 1)
}

fn summits(rt: &impl Print) -> io::Result<()> {
    let heights = [5, 3, 5];
    show_list(rt, "5 3 5 at T = 1", 1, &heights, 1)?;
    show_list(rt, "5 3 5 at T = 2", 1, &heights, 2)?;
    show_list(rt, "5 3 5 at T = 3", 1, &heights, 3)
}

fn flats(rt: &impl Print) -> io::Result<()> {
    let flat = [5, 5, 5];
    let cut = [5, BLANK, 6];
    show_list(rt, "5 5 5", 1, &flat, 1)?;
    show_list(rt, "5 blank 6", 1, &cut, 1)
}

// The two extremes, listed and then with the prominence.
fn extremes(rt: &impl Print) -> io::Result<()> {
    let heights = [2147483647, -2147483647, 2147483647];
    show_list(rt, "2147483647 -2147483647 2147483647", 1, &heights, 1)?;
    show_program(rt, 1, &heights)
}

// The runs of one row, and the grid of two rows.
fn runs(rt: &impl Print) -> io::Result<()> {
    let columns = [9, 2, 5, 4, 1];
    let cut = [5, BLANK];
    let corner = [8, 1, 1, 7];
    show_run(rt, "9 2 5 4 1 offered one by one at T = 1", 1, &columns, 1)?;
    show_run(rt, "5 then blank", 1, &cut, 1)?;
    show_list(rt, "two rows, cells 8 1 1 7", 2, &corner, 1)
}

// Rows 0 and 2 all 1, row 1 is 9 2 5 4 7.
fn three_rows(rt: &impl Print) -> io::Result<()> {
    let heights = [1, 9, 1, 1, 2, 1, 1, 5, 1, 1, 4, 1, 1, 7, 1];
    show_run(rt, "three rows, five columns", 3, &heights, 1)?;
    show_program(rt, 3, &heights)
}
