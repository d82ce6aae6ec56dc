// What the programs `peaks` and `outlines` have in common: how they read, the run files that they take, and the line of
// a refusal.
#![tactic(auto)]

ghost use Rattle.std.specs.Prelude.{◌++◌, ◌*◌, ◌≤◌, Some, codes, decimal, length, IfOk};
ghost use Rattle.record.specs.Refusals.{told_of};

use layout::ReadBack;
use record::Refusal;
use std::io::Read;
use std::{fmt, io};

// "The program takes at most 65,536 bytes [..] and 4,096 cells".
pub const MOST_BYTES: usize = 65536;

pub const MOST_CELLS: usize = 4096;

// The bytes to read: one more than a program takes, by which a longer file is known.
// Both programs read into arrays that have room for the most: they allocate nothing.
pub const INPUT: usize = 65537;

// The length of the longest line of a refusal, with a number of two digits and its end: so many bytes hold any.
pub const LINE: usize = 11;

// Reads until the file is full or the input ends, and answers how many bytes then stand in its front.
// A loop, since std's `read_exact` refuses an input that ends before, and does not tell how long it was.
pub fn read_full<R: Read>(input: &mut R, file: &mut [u8]) -> io::Result<usize>
    ensures { IfOk result (λ n. n ≤ length file.new) }
{
    let mut n = 0;
    while n < file.len() {
        let more = input.read(&mut file[n..])?;
        if more == 0 {
            return Ok(n);
        }
        n += more;
    }
    Ok(n)
}

// Whether a file's header asks for more cells than a program takes: 3, in its place in the order, behind 1.
fn is_large(file: &[u8]) -> bool {
    if file.len() < 24 {
        return false;
    }
    let rows = words::get(file, 0);
    let columns = words::get(file, 1);
    !record::bad_rows(rows) && MOST_CELLS < words::times(rows, columns)
}

// Reads a run file within the limits. The stored records are read for soundness only.
pub fn take(file: &[u8], heights: &mut [i32]) -> Result<ReadBack, Refusal>
    ensures { IfOk result (λ run. run.rows * run.columns ≤ length heights.new) }
{
    record::refuse_if(MOST_BYTES < file.len(), Refusal::FileLength)?;
    record::refuse_if(is_large(file), Refusal::Cells)?;
    reader::take_grid(file, heights, MOST_CELLS)
}

// A refusal as the programs print it, without the end of the line.
#[derive(Clone, Copy, PartialEq, Eq)]
pub struct Refused(pub Refusal);

impl fmt::Display for Refused {
    ghost output = { λ refused. Some (codes "refused " ++ decimal (told_of refused.0).number) };

    fn fmt<W: fmt::Write>(&self, f: &mut fmt::Formatter<W>) -> fmt::Result {
        write!(f, "refused {}", record::number(self.0))
    }
}
