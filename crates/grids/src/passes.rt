// The pass cells of request (ii) of document 02: shelves that lead nowhere, and a closed peak whose pass cell moves.
use crate::show::{show_list, show_run};
use second::BLANK;
use std::io;

// Runs them all.
pub fn run(rt: &impl Print) -> io::Result<()> {
    shelves(rt)?;
    moves(rt)
}

// In the first grid cell 0 is a shelf that leads nowhere. In the second, cell 2 leads from the 6 to the 5 alone, which
// does not outrank it; in the third, cell 2 leads from the later 6 to the earlier one, which does.
fn shelves(rt: &impl Print) -> io::Result<()> {
    let nowhere = [4, 6, 4, 9];
    let lower = [4, 5, 4, 6, 4, 9];
    let equal = [4, 6, 4, 6, 4, 9];
    show_list(rt, "4 6 4 9", 1, &nowhere, 1)?;
    show_list(rt, "4 5 4 6 4 9", 1, &lower, 1)?;
    show_list(rt, "4 6 4 6 4 9", 1, &equal, 1)
}

// The second column closes the 2 with the pass cell 6, which leads to the 3 at cell 7. Only the third column brings
// higher ground behind the earlier cell 4.
fn moves(rt: &impl Print) -> io::Result<()> {
    let heights = [
        BLANK, 2, BLANK, BLANK, 1, BLANK, 1, 3, 3, BLANK, BLANK, BLANK,
    ];
    show_run(rt, "four rows, a pass cell that moves", 4, &heights, 1)?;
    show_list(
        rt,
        "four rows, a pass cell that moves, the list",
        4,
        &heights,
        1,
    )
}
