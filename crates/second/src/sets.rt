// Sets of cells: bit i of the number says whether cell i is in the set. The bare number, since `&`, `|` and `!` are
// what is done with sets.
use crate::{Few, MAX};

// Whether the cell is in the set.
pub fn has(set: u64, cell: usize) -> bool {
    cell < MAX && (set >> cell) & 1 == 1
}

// The set of that one cell.
pub fn only(cell: usize) -> u64 {
    if cell < MAX { 1 << cell } else { 0 }
}

// The set of the cells with a smaller number than `end`.
pub fn earlier(end: usize) -> u64 {
    if end < MAX {
        !(u64::MAX << end)
    } else {
        u64::MAX
    }
}

// The earliest cell of the set.
pub fn earliest(set: u64) -> Option<usize> {
    (set != 0).then_some(set.trailing_zeros() as usize)
}

// The set of those cells with a smaller number than `end` that are as asked.
pub fn such<F: Fn(usize) -> bool>(end: usize, asked: F) -> u64
    requires { F.IsAlwaysCallable asked }
{
    (0..end)
        .filter(|cell| asked(*cell))
        .fold(0, |set, cell| set | only(cell))
}

// The cells of the set in reading order.
pub fn in_order(set: u64) -> Few<usize, MAX> {
    let mut cells = Few::new();
    for cell in (0..MAX).filter(|cell| has(set, *cell)) {
        cells.push(cell);
    }
    cells
}
