// Accounts from elsewhere, right ones and wrong ones, and what the check says to them.
use crate::accounts::show_check;
use lent_accounts::Asked;
use second::BLANK;
use second_accounts::Account;
use std::io;

// Runs them all.
pub fn run(rt: &impl Print) -> io::Result<()> {
    keys(rt)?;
    paths(rt)?;
    goals(rt)?;
    islands(rt)
}

// The right account of cell 2 has key 3, path 2 1 0 and island 2; that of cell 0 has no key.
fn keys(rt: &impl Print) -> io::Result<()> {
    let heights = [5, 3, 5];
    let higher = given(Some(4), &[2, 1, 0], &[2]);
    let lower = given(Some(2), &[2, 1, 0], &[0, 1, 2]);
    let none = given(None, &[], &[0, 1, 2]);
    let some = given(Some(3), &[0, 1, 2], &[0]);
    judge(
        rt,
        "5 3 5, cell 2, a key one higher",
        1,
        &heights,
        2,
        higher,
    )?;
    judge(rt, "5 3 5, cell 2, a key one lower", 1, &heights, 2, lower)?;
    judge(rt, "5 3 5, cell 2, no key", 1, &heights, 2, none)?;
    judge(
        rt,
        "5 3 5, cell 0, a key where there is none",
        1,
        &heights,
        0,
        some,
    )
}

// Paths of cell 2.
fn paths(rt: &impl Print) -> io::Result<()> {
    walk(rt, "5 3 5, cell 2, no path", &[])?;
    walk(rt, "5 3 5, cell 2, a path cut short", &[2, 1])?;
    walk(rt, "5 3 5, cell 2, a path that jumps", &[2, 0])?;
    walk(
        rt,
        "5 3 5, cell 2, a path to a cell that is not there",
        &[2, 3],
    )?;
    walk(rt, "5 3 5, cell 2, a path that wanders", &[2, 1, 2, 1, 0])
}

fn walk(rt: &impl Print, name: &str, path: &[u32]) -> io::Result<()> {
    let heights = [5, 3, 5];
    judge(rt, name, 1, &heights, 2, given(Some(3), path, &[2]))
}

// In the first grid cell 3 is of the peak's own flat; in the second, cell 4 is of a later peak. In the third, cell 1 is
// as high as the peak and earlier, but no peak's.
fn goals(rt: &impl Print) -> io::Result<()> {
    let flat = [5, 3, 5, 5];
    let later = [6, 3, 5, 4, 5];
    let shoulder = [6, 5, 3, 5];
    judge(
        rt,
        "5 3 5 5, cell 2, a path to its own flat",
        1,
        &flat,
        2,
        given(Some(3), &[2, 3], &[2, 3]),
    )?;
    judge(
        rt,
        "6 3 5 4 5, cell 2, a path to a later twin",
        1,
        &later,
        2,
        given(Some(4), &[2, 3, 4], &[2]),
    )?;
    judge(
        rt,
        "6 5 3 5, cell 3, a path to a shoulder",
        1,
        &shoulder,
        3,
        given(Some(3), &[3, 2, 1], &[3]),
    )?;
    judge(
        rt,
        "6 5 3 5, cell 3, a path over it",
        1,
        &shoulder,
        3,
        given(Some(3), &[3, 2, 1, 0], &[3]),
    )?;
    others(rt)
}

// Paths that the tool does not give: to nearer ground than the parent, which is the 9, and not the first of the
// shortest, which is 1 3 7.
fn others(rt: &impl Print) -> io::Result<()> {
    let nearer = [9, 4, 6, 3, 5];
    let forked = [BLANK, 5, BLANK, 2, BLANK, 2, BLANK, 9, BLANK];
    let name = "9 4 6 3 5, cell 4, a path to nearer ground than the parent";
    judge(rt, name, 1, &nearer, 4, given(Some(3), &[4, 3, 2], &[4]))?;
    judge(
        rt,
        "three rows, two ways, cell 1, the other path",
        3,
        &forked,
        1,
        given(Some(2), &[1, 5, 7], &[1]),
    )
}

// The right island of the 7 in the three-row grid is 7 10 13.
fn islands(rt: &impl Print) -> io::Result<()> {
    shade(
        rt,
        "three rows, cell 13, an island with a cell missing",
        &[7, 13],
    )?;
    shade(
        rt,
        "three rows, cell 13, an island with a cell too many",
        &[7, 10, 12, 13],
    )?;
    shade(
        rt,
        "three rows, cell 13, an island out of order",
        &[10, 7, 13],
    )?;
    shade(
        rt,
        "three rows, cell 13, an island with another cell",
        &[7, 10, 14],
    )
}

fn shade(rt: &impl Print, name: &str, island: &[u32]) -> io::Result<()> {
    let heights = [1, 9, 1, 1, 2, 1, 1, 5, 1, 1, 4, 1, 1, 7, 1];
    judge(
        rt,
        name,
        3,
        &heights,
        13,
        given(Some(2), &[13, 10, 7, 4, 1], island),
    )
}

// Prints an account, and what the check says to it.
fn judge(
    rt: &impl Print,
    name: &str,
    rows: u32,
    heights: &[i32],
    cell: u32,
    account: Account,
) -> io::Result<()> {
    show_check(
        rt,
        name,
        Asked::enough(rows, heights.len(), cell),
        heights,
        account,
    )
}

fn given<'a>(key: Option<i32>, path: &'a [u32], island: &'a [u32]) -> Account<'a> {
    Account { key, path, island }
}
