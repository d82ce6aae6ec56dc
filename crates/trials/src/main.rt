// Tries made-up grids and runs on which the rules fix how two answers are related, or on which both listers must answer
// alike, and prints on how many they do.
//
// The lister is asked through its public calls, each that hands out records lent a row of them. What differs is printed
// by its number, from which all of a grid or run is drawn.
#![tactic(auto)]

mod accounts; // accounts.rt: both listers on accounts, and the check of changed ones
mod backwards; // backwards.rt: the list of a grid that is read backwards
mod batches; // batches.rt: the batches of a run are the list, pass cells apart
mod both; // both.rt: one call of both listers, accepted or refused
mod changed; // changed.rt: key heights and rows that are changed
mod forged; // forged.rt: run records that are refused
mod growing; // growing.rt: both listers on runs
mod lists; // lists.rt: both listers on grids
mod outlines; // outlines.rt: both listers on outlines
mod random; // random.rt: made-up grids
mod refiled; // refiled.rt: run files written and read back

use crate::random::Drawn;
use std::io;

// How many made-up grids each relation is tried on.
const GRIDS: u64 = 300;

// The made-up grids behind these, up to the first of the runs, the runs up to the first of the outlines, the outlines
// up to the first of the accounts, and these up to the end: both listers are compared on them, with the refusals.
const FIRST_RUN: u64 = 700;

const FIRST_OUTLINE: u64 = 850;

const FIRST_ACCOUNT: u64 = 1150;

const END: u64 = 1300;

fn main(rt: HostRuntime) -> io::Result<()> {
    related(&rt)?;
    compared(&rt)?;
    accounted(&rt)
}

// Prints on how many made-up grids two answers are related as they must be.
fn related(rt: &impl Print) -> io::Result<()> {
    let agreed = count(rt, 0, GRIDS, |n| batches::agree(&Drawn::new(n)))?;
    println!(rt;
        "{agreed} of {GRIDS} runs: batches and list agree, pass cells apart, which only move to earlier ones"
    )?;
    let moves = some(0, GRIDS, |n| batches::differ_in_a_pass(&Drawn::new(n)));
    println!(rt; "{moves} of these runs a pass cell moves")?;
    let agreed = count(rt, 0, GRIDS, |n| backwards::agrees(&Drawn::apart(n)))?;
    println!(rt;
        "{agreed} of {GRIDS} grids without equal heights: the list read backwards agrees"
    )?;
    let agreed = count(rt, 0, GRIDS, |n| refiled::agrees(&Drawn::new(n)))?;
    println!(rt; "{agreed} of {GRIDS} lists: written to a file and read back the same")
}

// Prints on how many made-up grids, runs and outlines both listers agree.
fn compared(rt: &impl Print) -> io::Result<()> {
    let grids = count(rt, GRIDS, FIRST_RUN, |n| lists::agree(&Drawn::new(n)))?;
    println!(rt; "{grids} grids: both listers agree, refusals too, and other entries stay")?;
    let runs = count(
        rt,
        FIRST_RUN,
        FIRST_OUTLINE,
        |n| growing::agrees(&Drawn::new(n)),
    )?;
    println!(rt; "{runs} runs: both listers agree, refusals too, and other entries stay")?;
    let outlines = count(
        rt,
        FIRST_OUTLINE,
        FIRST_ACCOUNT,
        |n| outlines::agree(&Drawn::new(n)),
    )?;
    println!(rt; "{outlines} outlines: both listers agree, refusals too, and other bytes stay")
}

// Prints on how many made-up grids both listers agree on accounts, and that some changed path is accepted, some is not.
fn accounted(rt: &impl Print) -> io::Result<()> {
    let grids = count(rt, FIRST_ACCOUNT, END, |n| accounts::agree(&Drawn::new(n)))?;
    println!(rt;
        "{grids} grids: both listers agree on accounts, the check of changed ones and refusals, and other numbers stay"
    )?;
    let accepted = some(
        FIRST_ACCOUNT,
        END,
        |n| accounts::changed_gets(Some(Ok(true)), &Drawn::new(n)),
    );
    println!(rt; "{accepted} of these grids a changed path is accepted")?;
    let declined = some(
        FIRST_ACCOUNT,
        END,
        |n| accounts::changed_gets(Some(Ok(false)), &Drawn::new(n)),
    );
    println!(rt; "{declined} of these grids a changed path is not accepted")
}

// How many of the numbers from `start` on and below `end` are as they must be. The others are printed.
fn count<F: Fn(u64) -> bool>(rt: &impl Print, start: u64, end: u64, agrees: F) -> io::Result<u64>
    requires { F.IsAlwaysCallable agrees }
{
    let mut agreed = 0;
    for n in start..end {
        if agrees(n) {
            agreed += 1;
        } else {
            println!(rt; "differs: number {n}")?;
        }
    }
    Ok(agreed)
}

// Whether there is such a one among those numbers. Without one they would not try it.
fn some<F: Fn(u64) -> bool>(start: u64, end: u64, is_such: F) -> &'static str
    requires { F.IsAlwaysCallable is_such }
{
    if (start..end).any(|n| is_such(n)) {
        "in some"
    } else {
        "in none"
    }
}
