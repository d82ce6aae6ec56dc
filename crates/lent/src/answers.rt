// The one place where answers come from: both listers are asked, and what they say is compared. Where they differ there
// is no answer.
use crate::first;
use crate::told::Told;
use run::Run;
use second::{MAX, Records, WORK};

// The list of the whole grid.
pub fn list(rows: usize, heights: &[i32], threshold: u32) -> Option<Records> {
    let mut work = [0u8; WORK];
    let told = first::whole(narrow(rows), heights, threshold, &mut work, MAX);
    agreed(told, second::list(rows, heights, threshold))
}

// What the column call hands out that took the last column. That is offered to a run that has taken those before it.
pub fn column(rows: usize, heights: &[i32], threshold: u32) -> Option<Records> {
    let mut work = [0u8; WORK];
    let (before, offered) = last_apart(narrow(rows), heights);
    let mut grid: [i32; MAX] = std::array::from_fn(|cell| laid(before, cell));
    let run = taken(narrow(rows), before.len(), threshold);
    let step = first::column(run, offered, &mut grid, &mut work, MAX);
    agreed(step.told, second::batch(rows, heights, threshold))
}

// What End hands out after the last column.
pub fn end(rows: usize, heights: &[i32], threshold: u32) -> Option<Records> {
    let mut work = [0u8; WORK];
    let run = taken(narrow(rows), heights.len(), threshold);
    let step = first::end(run, heights, &mut work, MAX);
    agreed(step.told, second::rest(rows, heights, threshold))
}

// The records that the second lister gives, where the first tells them too.
fn agreed(told: Told<Records>, records: Records) -> Option<Records> {
    told.tells(Ok(()), &records).then_some(records)
}

// A number of rows in 32 bits; one that is above the limit becomes 0, which is refused as well.
pub fn narrow(rows: usize) -> u32 {
    if rows > 1024 { 0 } else { rows as u32 }
}

// The cells of a grid without its last column, and that column.
pub fn last_apart(rows: u32, heights: &[i32]) -> (&[i32], &[i32]) {
    heights.split_at(heights.len().saturating_sub(rows as usize))
}

// What a cell of a lent grid holds: its height, and behind the last one a number that the lister must not take up.
pub fn laid(heights: &[i32], cell: usize) -> i32 {
    heights.get(cell).copied().unwrap_or(77)
}

// The record of a run that has taken so many cells. There are never more cells than the second lister takes.
pub fn taken(rows: u32, cells: usize, threshold: u32) -> Run {
    let columns = (cells.min(MAX) as u32).checked_div(rows);
    Run::growing(rows, columns.unwrap_or(0), threshold)
}

// What Start is answered, where both listers say it.
pub fn start(rows: u32) -> Option<Result<(), u32>> {
    let own = run::start(rows, 1).map(|_| ()).map_err(record::number);
    let answer = second_refusals::start_call(rows);
    (own == answer).then_some(answer)
}
