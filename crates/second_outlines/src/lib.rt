// The outline of the second lister, written as `second` is: from the definitions alone, with no code of the first.
#![tactic(auto)]

mod outlining; // outlining.rt: the outline of the listed peaks
mod parents; // parents.rt: parents, and the order of the peaks under one

use crate::outlining::Outline;
use second::{Few, Grid};

// Room for the text of an outline. Of 64 cells at most 32 are peaks, no two of which touch; so there are at most 32
// lines of a peak, as `32 peak 63 -2147483647 31`, and 31 of a pass: 1,545 bytes.
pub const TEXT: usize = 2048;

// The bytes of an outline.
pub type Text = Few<u8, TEXT>;

// The outline of a whole grid to so many levels; that of a grid that is not supported is empty. No outline has too
// little room in its text.
pub fn outline(rows: usize, heights: &[i32], threshold: u32, levels: u32) -> Text {
    let mut text = Text::new();
    if let Some(grid) = Grid::supported(rows, heights) {
        // No write into a `Few` fails: where it is full it takes no more bytes.
        let _ = Outline::new(&grid, threshold, levels).write_under(None, 1, &mut text);
    }
    text
}
