// The run file of the paper's three-row grid at T = 1: written, read back, and refused.
use crate::show::show_told;
use lent::files::{Filed, Held, read, write};
use record::Peak;
use std::io;

// Its 15 cells and 3 records are 24 + 60 + 48 bytes.
pub fn run(rt: &impl Print) -> io::Result<()> {
    let heights = [1, 9, 1, 1, 2, 1, 1, 5, 1, 1, 4, 1, 1, 7, 1];
    let held = Held::list_of(3, &heights, 1);
    let filed = write(3, &heights, &held, 132);
    written(rt, &filed)?;
    read_back(rt, &filed.file[..132], &heights, &held)?;
    read_short(rt, &filed.file[..132])?;
    short_room(rt, &heights, &held)?;
    unsound_record(rt, &heights, held)
}

// Prints how many bytes the file has, and those of its header.
fn written(rt: &impl Print, filed: &Filed) -> io::Result<()> {
    let bytes = filed.told.answer.unwrap_or(0);
    print!(rt; "file of the three-row grid, bytes {bytes}, header")?;
    for byte in &filed.file[..24] {
        print!(rt; " {byte}")?;
    }
    println!(rt; "")
}

// Prints the counts that are read, and whether heights and records are those that were written.
fn read_back(rt: &impl Print, file: &[u8], heights: &[i32], held: &Held) -> io::Result<()> {
    let taken = read(file, 15, 3);
    let Ok(counts) = taken.answer else {
        return println!(rt; "file read back, refused, other heights or records");
    };
    let same = if taken.is(3, heights, held) {
        "the same"
    } else {
        "other"
    };
    let (rows, columns, peaks) = (counts.rows, counts.columns, counts.peaks);
    println!(rt;
        "file read back, rows {rows} columns {columns} peaks {peaks}, {same} heights and records"
    )
}

// Reads into a row of heights with a cell too little, and into a row of records with an entry too little.
fn read_short(rt: &impl Print, file: &[u8]) -> io::Result<()> {
    show_told(
        rt,
        "file read into 14 cells",
        "needs",
        &read(file, 14, 3).told(),
    )?;
    show_told(
        rt,
        "file read into a row of two",
        "needs",
        &read(file, 15, 2).told(),
    )
}

// Writes into a room with a byte too little.
fn short_room(rt: &impl Print, heights: &[i32], held: &Held) -> io::Result<()> {
    let filed = write(3, heights, held, 131);
    show_told(rt, "file into a room of 131 bytes", "needs", &filed.told)
}

// Writes a record whose height is not that of its cell.
fn unsound_record(rt: &impl Print, heights: &[i32], held: Held) -> io::Result<()> {
    let mut forged = held;
    forged.row[1] = Peak::with_key(7, 6, 4, 10);
    let filed = write(3, heights, &forged, 132);
    show_told(
        rt,
        "file with another height in record 1",
        "record",
        &filed.told,
    )
}
