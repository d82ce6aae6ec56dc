// A line for each answer: its name, a colon, and the records with a comma between them.
use crate::text::{Line, Lines, OrDash};
use lent::answers;
use lent::told::{Told, also};
use second::{Record, Records};
use std::io;

// Prints the list of a whole grid.
pub fn show_list(
    rt: &impl Print,
    name: &str,
    rows: usize,
    heights: &[i32],
    threshold: u32,
) -> io::Result<()> {
    print!(rt; "{name}")?;
    end_line(rt, answers::list(rows, heights, threshold), "empty list")
}

// Prints what each column call and End hand out, where the columns are offered one by one.
pub fn show_run(
    rt: &impl Print,
    name: &str,
    rows: usize,
    heights: &[i32],
    threshold: u32,
) -> io::Result<()> {
    if rows == 0 {
        return Ok(());
    }
    for end in (rows..=heights.len()).step_by(rows) {
        show_column(rt, name, rows, &heights[..end], threshold)?;
    }
    print!(rt; "{name}, End")?;
    end_line(rt, answers::end(rows, heights, threshold), "nothing")
}

// Prints what the column call hands out that took the last column.
pub fn show_column(
    rt: &impl Print,
    name: &str,
    rows: usize,
    heights: &[i32],
    threshold: u32,
) -> io::Result<()> {
    print!(rt; "{name}")?;
    if let Some(column) = heights.len().checked_div(rows) {
        print!(rt; ", column {column}")?;
    }
    end_line(rt, answers::column(rows, heights, threshold), "nothing")
}

// Writes the records and ends the line; `none` stands for no record. Where the listers differ there is no list.
fn end_line(rt: &impl Print, records: Option<Records>, none: &str) -> io::Result<()> {
    let Some(records) = records else {
        return println!(rt; ": the listers differ");
    };
    if records.as_slice().is_empty() {
        println!(rt; ": {none}")
    } else {
        println!(rt; ": {}", Lines(&records))
    }
}

// Prints what a call is answered. Where the listers differ the number printed is 99, which no refusal has.
pub fn show_answer(rt: &impl Print, name: &str, answer: Option<Result<(), u32>>) -> io::Result<()> {
    match answer {
        Some(Ok(())) => println!(rt; "{name}: accepted"),
        Some(Err(number)) => println!(rt; "{name}: gets {number}"),
        None => println!(rt; "{name}: gets 99"),
    }
}

// Prints a refusal, what it also returns behind its name, and whether what was lent is as it was.
pub fn show_told<T>(
    rt: &impl Print,
    name: &str,
    also_named: &str,
    told: &Told<T>,
) -> io::Result<()> {
    let kept = if told.kept { "unchanged" } else { "changed" };
    match &told.answer {
        Ok(_) => println!(rt; "{name}: accepted, {kept}"),
        Err(refusal) => {
            let number = record::number(*refusal);
            println!(rt;
                "{name}: gets {number}, {also_named} {}, {kept}",
                OrDash(also(*refusal))
            )
        }
    }
}

// Prints the list of a whole grid at T = 1 as the paper's program does, with the prominences.
pub fn show_program(rt: &impl Print, rows: usize, heights: &[i32]) -> io::Result<()> {
    let Some(records) = answers::list(rows, heights, 1) else {
        return println!(rt; "the listers differ");
    };
    let records = records.as_slice();
    if let Some(columns) = heights.len().checked_div(rows) {
        println!(rt; "rows {rows} columns {columns} peaks {}", records.len())?;
    }
    for record in records {
        println!(rt; "{} {}", Line(*record), OrDash(prominence_of(*record)))?;
    }
    Ok(())
}

// The prominence of a record; none without a key height.
fn prominence_of(record: Record) -> Option<i64> {
    record.key.map(|key| second::prominence(record.height, key))
}
