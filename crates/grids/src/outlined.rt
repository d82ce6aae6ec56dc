// The outlines of the one-row run of document 02, and of the three-row grid of the paper.
use lent_outlines::answer;
use std::io;

// Prints both.
pub fn run(rt: &impl Print) -> io::Result<()> {
    let columns = [9, 2, 5, 4, 7];
    let heights = [1, 9, 1, 1, 2, 1, 1, 5, 1, 1, 4, 1, 1, 7, 1];
    show_outline(
        rt,
        "9 2 5 4 7 at T = 1, outline of two levels",
        1,
        &columns,
        2,
    )?;
    show_outline(
        rt,
        "three rows, five columns, outline of 64 levels",
        3,
        &heights,
        64,
    )
}

// Prints an outline at T = 1 under its name. Where the listers differ there is none.
fn show_outline(
    rt: &impl Print,
    name: &str,
    rows: usize,
    heights: &[i32],
    levels: u32,
) -> io::Result<()> {
    let Some(text) = answer(rows, heights, 1, levels) else {
        return println!(rt; "{name}: the listers differ");
    };
    println!(rt; "{name}:")?;
    rt.write_all(text.as_slice())
}
