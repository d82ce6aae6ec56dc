// The program that lists a run file: it reads one on standard input and lists its heights afresh at threshold 1.
#![tactic(auto)]

use intake::{INPUT, MOST_CELLS, Refused};
use layout::ReadBack;
use record::{Peak, Refusal};
use std::io;
use table::{Listed, Records};

// Writes the record of a peak: its cell and height, then key height, pass cell and prominence, or that they are
// missing.
fn say_peak(rt: &impl Print, peak: Peak) -> io::Result<()> {
    let Peak {
        cell,
        height,
        key,
        pass,
    } = peak;
    if peak.has_key() {
        let prominence = record::prominence(height, key);
        println!(rt; "{cell} {height} {key} {pass} {prominence}")
    } else {
        println!(rt; "{cell} {height} - - -")
    }
}

// Writes the list of a run: how large both are, then its records.
fn say_list(rt: &impl Print, run: ReadBack, list: Listed<'_>) -> io::Result<()> {
    let ReadBack { rows, columns, .. } = run;
    println!(rt; "rows {rows} columns {columns} peaks {}", list.count())?;
    for i in 0..list.count() {
        say_peak(rt, list.record(i))?;
    }
    Ok(())
}

// Reads a run file and lists its heights; the records are left in the work area.
fn list_file<'a>(
    file: &[u8],
    heights: &mut [i32],
    work: &'a mut [u8],
) -> Result<(ReadBack, Listed<'a>), Refusal> {
    let run = intake::take(file, heights)?;
    let n = run.cells();
    let count = list::flat(run.rows, &heights[..n], 1, work, MOST_CELLS)?;
    let count = words::index(count);
    Ok((run, Listed { work, n, count }))
}

fn main(rt: HostRuntime) -> io::Result<()> {
    let mut file = [0u8; INPUT];
    let mut heights = [0i32; MOST_CELLS];
    let mut work = [0u8; 65536];
    let n = intake::read_full(&mut rt.stdin(), &mut file)?;
    match list_file(&file[..n], &mut heights, &mut work) {
        Ok((run, list)) => say_list(&rt, run, list),
        Err(refusal) => rt.println(Refused(refusal)),
    }
}
