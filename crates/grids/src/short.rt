// A row with one entry too few, lent to each call that fills one: refusal 5, the number needed, and the row as it was.
use crate::show::show_told;
use lent::first;
use lent::first::taken;
use std::io;

// Asks them all.
pub fn run(rt: &impl Print) -> io::Result<()> {
    list_short(rt)?;
    column_short(rt)?;
    end_short(rt)
}

fn list_short(rt: &impl Print) -> io::Result<()> {
    let told = first::whole(1, &[5, 3, 5], 1, &mut [0; 48], 1);
    show_told(rt, "list, 5 3 5 into a row of one", "needs", &told)
}

// "At 5 from the column call, the cells just behind the taken ones hold the offered column."
fn column_short(rt: &impl Print) -> io::Result<()> {
    let mut grid = [9, 2, 5, 4, 77, 77];
    let step = first::column(taken(1, 4, false), &[1], &mut grid, &mut [0; 80], 0);
    let name = "column, 1 behind 9 2 5 4 into a row of none";
    show_told(rt, name, "needs", &step.told)?;
    println!(rt;
        "column, the two cells behind 9 2 5 4 after it: {} {}",
        grid[4], grid[5]
    )
}

fn end_short(rt: &impl Print) -> io::Result<()> {
    let grid = [1, 9, 1, 1, 2, 1, 1, 5, 1, 1, 4, 1, 1, 7, 1];
    let step = first::end(taken(3, 5, false), &grid, &mut [0; 240], 1);
    let name = "end, three rows and five columns into a row of one";
    show_told(rt, name, "needs", &step.told)
}
