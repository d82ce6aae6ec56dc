// The run file, written and read through the public calls.
//
// Every byte of a room, every cell of a row of heights and every entry of a row of records holds a mark before a call,
// so that what the call does not count is seen to stay.
use crate::answers::laid;
use crate::row;
use crate::row::{Row, marked};
use crate::told::Told;
use layout::ReadBack;
use record::{Peak, Refusal};
use second::WORK;

// As many bytes as a file of 40 cells and 40 records has.
pub const BYTES: usize = 824;

// The most cells that a file is read into.
pub const CELLS: usize = 64;

// The records of a list, as many as are counted, in a row.
#[derive(Clone, Copy)]
pub struct Held {
    pub row: Row,
    pub count: usize,
}

// What writing tells, with the number of bytes, and the room after it.
#[derive(Clone, Copy)]
pub struct Filed {
    pub told: Told<usize>,
    pub file: [u8; BYTES],
}

// What reading answers, and the heights and the row after it.
#[derive(Clone, Copy)]
pub struct Taken {
    pub answer: Result<ReadBack, Refusal>,
    pub heights: [i32; CELLS],
    pub row: Row,
}

impl Held {
    // The list of a grid, into a row of 64 entries; of a grid that is refused, no record.
    pub fn list_of(rows: u32, heights: &[i32], threshold: u32) -> Held {
        let mut work = [0u8; WORK];
        let mut row = marked();
        let handed = list::list(rows, heights, threshold, &mut work, &mut row);
        Held {
            row,
            count: handed.unwrap_or(0) as usize,
        }
    }

    // The records.
    fn peaks(&self) -> &[Peak] {
        &self.row[..self.count.min(64)]
    }
}

// Writes a grid and its records into a room of so many bytes.
pub fn write(rows: u32, heights: &[i32], held: &Held, bytes: usize) -> Filed {
    let mut file = [7u8; BYTES];
    let room = bytes.min(BYTES);
    let written = runfile::write(rows, heights, held.peaks(), &mut file[..room]);
    let answer = written.map(|bytes| bytes as usize);
    let kept = bytes_kept(&file, answer.unwrap_or(0));
    Filed {
        told: Told { answer, kept },
        file,
    }
}

// Whether the bytes of a room from `start` on are as they were.
pub fn bytes_kept(room: &[u8], start: usize) -> bool {
    room.iter().skip(start).all(|byte| *byte == 7)
}

// Reads a file into so many cells and a row of so many entries.
pub fn read(file: &[u8], cells: usize, entries: usize) -> Taken {
    let mut heights = [77i32; CELLS];
    let mut row = marked();
    let answer = runfile::read(
        file,
        &mut heights[..cells.min(CELLS)],
        &mut row[..entries.min(64)],
    );
    Taken {
        answer,
        heights,
        row,
    }
}

impl Taken {
    // What reading tells, with the number of records. What an accepted call fills is for `is` to look at.
    pub fn told(&self) -> Told<usize> {
        Told {
            answer: self.answer.map(|counts| counts.peaks as usize),
            kept: self.answer.is_ok() || (self.holds(&[]) && row::kept(&self.row, 0)),
        }
    }

    // Whether rows, columns, heights and records are those that were written, and all else is as it was. Both rows of
    // records were marked before, so the entries behind the records are equal as well.
    pub fn is(&self, rows: u32, heights: &[i32], held: &Held) -> bool {
        self.answer
            .is_ok_and(|counts| are_of(counts, rows, heights.len(), held.count))
            && self.holds(heights)
            && row::same(&held.row, &self.row)
    }

    // Whether the cells that were read are those heights, and the cells behind them as they were.
    fn holds(&self, heights: &[i32]) -> bool {
        self.heights
            .iter()
            .enumerate()
            .all(|(cell, height)| *height == laid(heights, cell))
    }
}

// Whether the counts are those of a grid of so many cells, with so many records.
fn are_of(counts: ReadBack, rows: u32, cells: usize, peaks: usize) -> bool {
    counts.rows == rows
        && cells.checked_div(rows as usize) == Some(counts.columns as usize)
        && counts.peaks as usize == peaks
}
