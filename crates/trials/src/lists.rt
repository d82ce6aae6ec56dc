// On made-up grids, that both listers answer a list call alike, accepted or refused.
use crate::both::{Lent, list_agrees};
use crate::random::{CELLS, Drawn};
use lent::answers::narrow;
use second::Records;

// Whether they agree on every call with the grid.
pub fn agree(drawn: &Drawn) -> bool {
    let (heights, threshold) = (drawn.heights(), drawn.threshold);
    let records = second::list(drawn.rows, heights, threshold);
    let lent = Lent::enough(heights.len(), records.as_slice().len());
    rooms_agree(narrow(drawn.rows), heights, threshold, lent, &records)
        && rows_agree(heights, threshold, lent, &records)
}

// Whether they agree where the room is just enough, and where it is a byte or a record short.
fn rooms_agree(rows: u32, heights: &[i32], threshold: u32, lent: Lent, records: &Records) -> bool {
    list_agrees(rows, heights, threshold, lent, records)
        && list_agrees(rows, heights, threshold, lent.byte_short(), records)
        && list_agrees(rows, heights, threshold, lent.room_short(), records)
}

// Whether they agree on rows that are refused: none, too many, and one more than there are cells. Without cells the
// last is no refusal, and the list is empty at any rows.
fn rows_agree(heights: &[i32], threshold: u32, lent: Lent, records: &Records) -> bool {
    let more = heights.len().min(CELLS) as u32 + 1;
    list_agrees(0, heights, threshold, lent, records)
        && list_agrees(1025, heights, threshold, lent, records)
        && list_agrees(more, heights, threshold, lent, records)
}
