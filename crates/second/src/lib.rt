// A second lister, for grids of at most 64 cells: brute force from the definitions alone, with no code of the first.
//
// It is what the first lister is compared with, so the contracts of its calls say only that they are safe and end.
#![tactic(auto)]

pub mod few; // few.rt: lists in fixed memory
pub mod grid; // grid.rt: a grid, its heights and its touching cells
pub mod listing; // listing.rt: which peaks are listed, which are closed, and their records
pub mod peaks; // peaks.rt: flats, peaks, outranking ground, key heights, top peaks, islands, passes
pub mod sets; // sets.rt: sets of cells

pub use few::Few;
pub use grid::Grid;
pub use listing::{Record, Records, prominence};

// The greatest number of cells of a grid that this lister takes.
pub const MAX: usize = 64;

// The bytes of a work area for so many cells, four numbers of 32 bits for each.
pub const WORK: usize = 1024;

// The mark of a blank cell in a row of heights, which is lent to the first lister as well, and of a missing key height
// in the records that it hands out.
pub const BLANK: i32 = i32::MIN;

// The mark of a missing pass cell in those records. Both marks are stated here on their own, so that a first lister
// with other marks is seen to differ.
pub const MISSING_PASS: u32 = 4294967295;

// The list of a whole grid; a grid that is not supported has no record.
// Rows and heights come apart, as the calls of the first lister take them; a `Grid` is made of them at once.
pub fn list(rows: usize, heights: &[i32], threshold: u32) -> Records {
    listed_of(rows, heights, threshold, |grid| grid.peaks)
}

// What the column call hands out whose accepted column is the last one of heights.
pub fn batch(rows: usize, heights: &[i32], threshold: u32) -> Records {
    listed_of(
        rows,
        heights,
        threshold,
        |grid| grid.closed() & !grid.closed_before(),
    )
}

// What End hands out for a run of these heights.
pub fn rest(rows: usize, heights: &[i32], threshold: u32) -> Records {
    listed_of(rows, heights, threshold, |grid| grid.peaks & !grid.closed())
}

// The records of those among some peaks of a grid that are listed.
fn listed_of<F: Fn(&Grid) -> u64>(rows: usize, heights: &[i32], threshold: u32, some: F) -> Records
    requires { F.IsAlwaysCallable some }
{
    match Grid::supported(rows, heights) {
        Some(grid) => grid.records(some(&grid) & grid.listed(threshold)),
        None => Records::new(),
    }
}

// Whether the cell is a peak's. Only its flat is looked at, not all cells.
pub fn is_peak(rows: usize, heights: &[i32], cell: usize) -> bool {
    grid::is_supported(rows, heights.len())
        && cell < heights.len()
        && Grid::bare(rows, heights).is_peak(cell)
}
