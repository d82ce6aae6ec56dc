// The short cuts that go wrong, in the paper's order: for each a grid that shows it, with the right answer. Each is a
// call of its own: a table of cases would have the same lines, a row of each.
use crate::show::{show_column, show_list};
use second::BLANK;
use std::io;

// Runs them all.
pub fn run(rt: &impl Print) -> io::Result<()> {
    flat(rt)?;
    nearest_saddle(rt)?;
    equal_summits(rt)?;
    last_column(rt)?;
    others(rt)
}

fn flat(rt: &impl Print) -> io::Result<()> {
    let heights = [5, 5, 5];
    let name =
        "short cut, every cell without a higher neighbour a peak of its own: 5 5 5 has one peak";
    show_list(rt, name, 1, &heights, 1)
}

fn nearest_saddle(rt: &impl Print) -> io::Result<()> {
    let heights = [1, 9, 1, 1, 2, 1, 1, 5, 1, 1, 4, 1, 1, 7, 1];
    let name = "short cut, the drop to the nearest saddle: in the three-row grid the 7 drops to 2";
    show_list(rt, name, 3, &heights, 1)
}

fn equal_summits(rt: &impl Print) -> io::Result<()> {
    let heights = [5, 3, 5];
    let name =
        "short cut, equal summits undefined together: in 5 3 5 the later one has a key height";
    show_list(rt, name, 1, &heights, 1)
}

fn last_column(rt: &impl Print) -> io::Result<()> {
    let heights = [9, 2, 5, 4];
    let name = "short cut, not in the last column taken for closed: the 5 in 9 2 5 4 is open";
    show_column(rt, name, 1, &heights, 1)
}

fn others(rt: &impl Print) -> io::Result<()> {
    low_blank(rt)?;
    narrow_difference(rt)
}

fn low_blank(rt: &impl Print) -> io::Result<()> {
    let heights = [5, BLANK, 6];
    let name = "short cut, a blank as a very low height: 5 blank 6 has no pass";
    show_list(rt, name, 1, &heights, 1)
}

fn narrow_difference(rt: &impl Print) -> io::Result<()> {
    let heights = [2147483647, -2147483647, 2147483647];
    let met = "short cut, subtracting in 32 signed bits: the two extremes at T = 4294967294";
    let missed = "short cut, subtracting in 32 signed bits: the two extremes at T = 4294967295";
    show_list(rt, met, 1, &heights, 4294967294)?;
    show_list(rt, missed, 1, &heights, 4294967295)
}
