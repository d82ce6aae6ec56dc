// The program that prints the outline of a run file: it reads one on standard input and lists its heights afresh at
// threshold 1.
#![tactic(auto)]

use intake::{INPUT, MOST_CELLS, Refused};
use record::Refusal;
use run::Run;
use std::io;

// The most levels that an outline has.
const LEVELS: u32 = 64;

// Room for the text. No two peaks touch, so there are at most 2,048 of them, each with at most a line of its pass as
// `63 pass 4095 -2147483647`, 25 bytes, and one of its own as `64 peak 4095 -2147483647 2047`, 30 bytes.
const TEXT: usize = 131072;

// Reads a run file, and puts the outline of its heights into the front of a room for text.
fn outlined<'a>(file: &[u8], room: &'a mut [u8]) -> Result<&'a [u8], Refusal> {
    let mut heights = [0i32; MOST_CELLS];
    let mut work = [0u8; 65536];
    let read = intake::take(file, &mut heights)?;
    let run = Run {
        ended: true,
        ..Run::growing(read.rows, read.columns, 1)
    };
    let bytes = outline::outline(run, &heights, LEVELS, &mut work, room)?;
    Ok(&room[..words::index(bytes)])
}

fn main(rt: HostRuntime) -> io::Result<()> {
    let mut file = [0u8; INPUT];
    let mut room = [0u8; TEXT];
    let n = intake::read_full(&mut rt.stdin(), &mut file)?;
    match outlined(&file[..n], &mut room) {
        Ok(text) => rt.write_all(text),
        Err(refusal) => rt.println(Refused(refusal)),
    }
}
