// On made-up grids, that the list is written and read back the same, and that a room, a row of heights and a row of
// records with one too little are refused.
use crate::random::{CELLS, Drawn};
use lent::answers::narrow;
use lent::files::{BYTES, Held, read, write};
use lent::told::{Told, also};

// Whether the file of a grid is as it should be.
pub fn agrees(drawn: &Drawn) -> bool {
    let (rows, heights) = (narrow(drawn.rows), drawn.heights());
    let held = Held::list_of(rows, heights, drawn.threshold);
    let bytes = bytes_of(heights.len(), held.count);
    write_agrees(rows, heights, &held, bytes) && read_agrees(rows, heights, &held, bytes)
}

// "offset of peaks + 16n", which is 24 + 4 x cells + 16n. No made-up grid has more cells or records than `CELLS`.
fn bytes_of(cells: usize, count: usize) -> usize {
    24 + 4 * cells.min(CELLS) + 16 * count.min(CELLS)
}

// Whether the file is written into as many bytes as it has, and refused with one less.
fn write_agrees(rows: u32, heights: &[i32], held: &Held, bytes: usize) -> bool {
    let filed = write(rows, heights, held, bytes);
    let short = write(rows, heights, held, bytes.saturating_sub(1));
    tells(&filed.told, Ok(bytes)) && tells(&short.told, Err((13, bytes)))
}

// Whether it is read back the same, and refused where a cell or an entry is missing.
fn read_agrees(rows: u32, heights: &[i32], held: &Held, bytes: usize) -> bool {
    let filed = write(rows, heights, held, bytes);
    let file = &filed.file[..bytes.min(BYTES)];
    read(file, heights.len(), held.count).is(rows, heights, held)
        && cells_short(file, heights.len(), held.count)
        && entries_short(file, heights.len(), held.count)
}

// Without a cell, none is missing.
fn cells_short(file: &[u8], cells: usize, count: usize) -> bool {
    cells == 0 || tells(&read(file, cells - 1, count).told(), Err((13, cells)))
}

// Without a record, none is missing.
fn entries_short(file: &[u8], cells: usize, count: usize) -> bool {
    count == 0 || tells(&read(file, cells, count - 1).told(), Err((5, count)))
}

// Whether a call tells that number, or that refusal with the number that it returns, and all that it does not count is
// as it was.
fn tells(told: &Told<usize>, wanted: Result<usize, (u32, usize)>) -> bool {
    let own = told.answer.map_err(|refusal| {
        (record::number(refusal), also(refusal).unwrap_or(0) as usize)
    });
    told.kept && own == wanted
}
