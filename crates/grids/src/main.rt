// Runs every grid of section "Grids to check by", each short cut that goes wrong, and calls that are lent one entry,
// cell or byte too little, and prints a line for each; then two outlines, the pass cells of document 02, and last
// accounts of key heights, the tool's own and others. The lister is asked through its public calls, each that hands out
// records lent a row of them, with the second lister beside it.
#![tactic(auto)]

mod accounts; // accounts.rt: the accounts of peaks, and cells that have none
mod filed; // filed.rt: run files that are written and read back
mod judged; // judged.rt: accounts from elsewhere, and what the check says
mod limits; // limits.rt: the refusals at the limits
mod outlined; // outlined.rt: the outline of document 02, and that of the three-row grid
mod paper; // paper.rt: the grids of the paper
mod passes; // passes.rt: the pass cells of document 02
mod short; // short.rt: rows with one entry too few
mod shortcuts; // shortcuts.rt: the short cuts that go wrong
mod show; // show.rt: a line for each answer
mod text; // text.rt: answers as text

use std::io;

fn main(rt: HostRuntime) -> io::Result<()> {
    paper::run(&rt)?;
    shortcuts::run(&rt)?;
    short::run(&rt)?;
    filed::run(&rt)?;
    outlined::run(&rt)?;
    passes::run(&rt)?;
    accounts::run(&rt)?;
    judged::run(&rt)
}
