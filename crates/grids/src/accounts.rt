// The accounts of request (iii) of document 02, and calls that get none. Both listers are asked: they differ also where
// a number of a room has changed that should not.
use crate::show::show_answer;
use crate::text::{OrDash, Row};
use lent_accounts::{Asked, Rooms, no_account};
use second::BLANK;
use second_accounts::Account;
use std::io;

// Runs them all.
pub fn run(rt: &impl Print) -> io::Result<()> {
    three_rows(rt)?;
    one_row(rt)?;
    no_peaks(rt)?;
    short_rooms(rt)?;
    orders(rt)
}

// Rows 0 and 2 all 1, row 1 is 9 2 5 4 7. In the other grid cells 3 and 5 both lie between the 5 and the 9: the path is
// the first of the two shortest.
fn three_rows(rt: &impl Print) -> io::Result<()> {
    let heights = [1, 9, 1, 1, 2, 1, 1, 5, 1, 1, 4, 1, 1, 7, 1];
    show_account(rt, "three rows, account of the 5 at cell 7", 3, &heights, 7)?;
    show_account(
        rt,
        "three rows, account of the 7 at cell 13",
        3,
        &heights,
        13,
    )?;
    show_account(rt, "three rows, account of the 9 at cell 1", 3, &heights, 1)?;
    let forked = [BLANK, 5, BLANK, 2, BLANK, 2, BLANK, 9, BLANK];
    show_account(
        rt,
        "three rows, two ways, account of the 5 at cell 1",
        3,
        &forked,
        1,
    )
}

fn one_row(rt: &impl Print) -> io::Result<()> {
    let summits = [5, 3, 5];
    let shelf = [4, 6, 4, 9];
    let flat = [5, 5, 5];
    show_account(rt, "5 3 5, account of cell 2", 1, &summits, 2)?;
    show_account(rt, "4 6 4 9, account of cell 1", 1, &shelf, 1)?;
    show_account(rt, "5 5 5, account of cell 0", 1, &flat, 0)
}

// Prints the account of a peak, and what the check says to it.
fn show_account(
    rt: &impl Print,
    name: &str,
    rows: u32,
    heights: &[i32],
    cell: u32,
) -> io::Result<()> {
    let given = second_accounts::account(rows as usize, heights, cell as usize);
    let asked = Asked::enough(rows, heights.len(), cell);
    match asked.answer(heights, Rooms::enough(heights.len()), given.account()) {
        Some(Ok(())) => show_check(rt, name, asked, heights, given.account()),
        other => show_answer(rt, name, other),
    }
}

// Prints an account, and what the check says to it.
pub fn show_check(
    rt: &impl Print,
    name: &str,
    asked: Asked,
    heights: &[i32],
    account: Account,
) -> io::Result<()> {
    let Account { key, path, island } = account;
    print!(rt;
        "{name}: key {}, path{}, island{}",
        OrDash(key),
        Row(path),
        Row(island)
    )?;
    match asked.verdict(heights, account) {
        Some(Ok(true)) => println!(rt; ", the check says yes"),
        Some(Ok(false)) => println!(rt; ", the check says no"),
        other => show_answer(rt, ", the check", refusal(other)),
    }
}

// What the check refuses, without what it says.
fn refusal(verdict: Option<Result<bool, u32>>) -> Option<Result<(), u32>> {
    Some(verdict?.map(|_| ()))
}

// ---- refusals

// Cells that are no peak's: one of a flat, behind its first, a blank, a slope, and one that is not there.
fn no_peaks(rt: &impl Print) -> io::Result<()> {
    let flat = [5, 5, 5];
    let cut = [5, BLANK, 6];
    let slope = [9, 2, 5, 4, 1];
    refuse(rt, "5 5 5, account of cell 1", &flat, 1)?;
    refuse(rt, "5 blank 6, account of the blank at cell 1", &cut, 1)?;
    refuse(rt, "9 2 5 4 1, account of the slope at cell 3", &slope, 3)?;
    refuse(
        rt,
        "9 2 5 4 1, account of cell 5, which is not there",
        &slope,
        5,
    )
}

// Asks for an account in one row that there is not.
fn refuse(rt: &impl Print, name: &str, heights: &[i32], cell: u32) -> io::Result<()> {
    let asked = Asked::enough(1, heights.len(), cell);
    let rooms = Rooms::enough(heights.len());
    show_answer(rt, name, asked.answer(heights, rooms, no_account()))
}

fn short_rooms(rt: &impl Print) -> io::Result<()> {
    let path = Rooms { path: 2, island: 3 };
    let island = Rooms { path: 3, island: 2 };
    let none = Rooms { path: 0, island: 0 };
    lend(
        rt,
        "5 3 5, account of cell 2 into a path room of two",
        2,
        path,
    )?;
    lend(
        rt,
        "5 3 5, account of cell 2 into an island room of two",
        2,
        island,
    )?;
    lend(rt, "5 3 5, account of cell 1 into rooms of none", 1, none)
}

// Asks for an account in 5 3 5 with such rooms.
fn lend(rt: &impl Print, name: &str, cell: u32, rooms: Rooms) -> io::Result<()> {
    let asked = Asked::enough(1, 3, cell);
    show_answer(rt, name, asked.answer(&[5, 3, 5], rooms, no_account()))
}

// A byte less than 16 for each cell, for a cell that is no peak's; and the check of such a cell.
fn orders(rt: &impl Print) -> io::Result<()> {
    let heights = [5, 3, 5];
    let asked = Asked::enough(1, 3, 1);
    let short = Asked { bytes: 47, ..asked };
    let none = no_account();
    show_answer(
        rt,
        "5 3 5, check of cell 1",
        refusal(asked.verdict(&heights, none)),
    )?;
    let account = "5 3 5, account of cell 1 with a work area of 47 bytes";
    show_answer(rt, account, short.answer(&heights, Rooms::enough(3), none))?;
    let check = "5 3 5, check of cell 1 with a work area of 47 bytes";
    show_answer(rt, check, refusal(short.verdict(&heights, none)))
}
