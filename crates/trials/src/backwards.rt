// On made-up grids without equal heights, that the grid read backwards has the same list, backwards.
//
// Where no two heights are equal, nothing in the definitions goes by which cell is earlier but the order of the list:
// each flat is one cell, only higher cells outrank it, and only one cell has the key height.
use crate::random::{CELLS, Drawn};
use lent::answers;
use second::{Few, Record};

// Whether the list is the same backwards.
pub fn agrees(drawn: &Drawn) -> bool {
    let heights = drawn.heights();
    let mut turned: Few<i32, CELLS> = Few::from(heights);
    turned.as_mut_slice().reverse();
    let Some(there) = answers::list(drawn.rows, heights, drawn.threshold) else {
        return false;
    };
    let Some(back) = answers::list(drawn.rows, turned.as_slice(), drawn.threshold) else {
        return false;
    };
    same_backwards(there.as_slice(), back.as_slice(), heights.len())
}

// Whether the first list is the second one backwards, at turned cells.
fn same_backwards(there: &[Record], back: &[Record], cells: usize) -> bool {
    there.len() == back.len()
        && there
            .iter()
            .zip(back.iter().rev())
            .all(|(one, other)| turned(*one, cells) == *other)
}

// The record at turned cells.
fn turned(record: Record, cells: usize) -> Record {
    Record {
        cell: from_end(record.cell, cells),
        pass: record.pass.map(|pass| from_end(pass, cells)),
        ..record
    }
}

// The cell that is counted from the last one.
fn from_end(cell: usize, cells: usize) -> usize {
    cells.saturating_sub(cell).saturating_sub(1)
}
