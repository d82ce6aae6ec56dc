// The outline of lesser peaks under greater ones, of an ended run, as text in lent bytes.
#![tactic(auto)]

mod linked; // linked.rt: the cells that links lead through
mod printers; // printers.rt: a peak and its passes, a pass and its peaks
mod tops; // tops.rt: all tops in reading order

ghost use Rattle.std.specs.Prelude.{◌≡◌, length};
ghost use Rattle.record.specs.Refusals.{first_of};
ghost use Rattle.outline.specs.Promises.{bad_levels, outline_tests, Outlines};
ghost use Rattle.outline.specs.Inner.{Linkable, Prepared, Printable, PrintedAll};

use crate::tops::tops;
use lines::{Counter, Page};
use record::Refusal;
use run::Run;

// Whether a number of levels is refused by 14.
fn bad_levels(levels: u32) -> bool
    ensures { result ≡ bad_levels levels }
{
    levels == 0 || 64 < levels
}

// The tests before the work, in the paper's order.
#[tactic(auto, unfolding(record::specs::Refusals::first_of, crate::specs::Promises::outline_tests))]
fn check(run: Run, grid: usize, levels: u32, work: usize) -> Result<(), Refusal>
    ensures { result ≡ first_of (outline_tests run grid levels work) }
{
    running::check_run(run, grid)?;
    record::refuse_if(!run.ended, Refusal::NotEnded)?;
    record::refuse_if(bad_levels(levels), Refusal::Levels)?;
    record::refuse_if(
        record::short_work(work, running::held_cells(run)),
        Refusal::Work,
    )
}

// Links the listed peaks of the held cells in the work area, and hands back how many of the cells are not blank.
fn prepare(run: Run, grid: &[i32], work: &mut [u8]) -> usize
    requires { Linkable run (length grid.now) (length work.old) }
    ensures { Prepared run grid.now work.old work.new result }
{
    let n = running::held_cells(run);
    let rows = words::index(run.rows);
    heights::load(work, grid, n);
    let m = survey::tops(work, n, rows);
    kin::link(work, n, m, rows, run.threshold);
    m
}

// Prints the outline of the peaks that are linked, once it is known that its text has room.
fn print(work: &[u8], n: usize, levels: u32, text: &mut [u8]) -> Result<u32, Refusal>
    requires { Printable work.now n levels }
    ensures { PrintedAll work.now n levels text.old text.new result }
{
    let left = levels - 1;
    let mut counter = Counter { bytes: 0 };
    tops(work, n, &mut counter, left);
    let needed = counter.bytes;
    record::refuse_if(text.len() < needed, Refusal::TextRoom)?;
    tops(work, n, &mut Page { text, at: 0 }, left);
    Ok(words::narrow(needed))
}

// The outline of the listed peaks of an ended run, to so many levels, as lines of text. Blank cells alone have none,
// and no cell is looked at again.
pub fn outline(
    run: Run,
    grid: &[i32],
    levels: u32,
    work: &mut [u8],
    text: &mut [u8],
) -> Result<u32, Refusal>
    ensures { Outlines run grid.now levels work.old work.new
        text.old text.new result }
{
    check(run, grid.len(), levels, work.len())?;
    if prepare(run, grid, work) == 0 {
        return Ok(0);
    }
    print(work, running::held_cells(run), levels, text)
}
