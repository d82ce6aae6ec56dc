// The whole-grid call: the flat core behind the refusals, and the lent row of records filled from it. Its parameters
// are those of document 01 and of the C entry, and no struct.
#![tactic(auto)]

ghost use Rattle.list.specs.Promises.{Lists};
ghost use Rattle.list.specs.Inner.{ListsFlat};

use record::{Peak, Refusal};

// The whole-grid call without the table, of which only the room counts: the records are left in the work area.
pub fn flat(
    rows: u32,
    heights: &[i32],
    threshold: u32,
    work: &mut [u8],
    room: usize,
) -> Result<u32, Refusal>
    ensures { ListsFlat rows heights.now threshold work.old room work.new result }
{
    heights::check(rows, heights.len(), work.len())?;
    survey::made(rows, heights, threshold, work, room)
}

// The whole-grid call: lists the peaks of a grid of `rows` rows into a lent row of records.
pub fn list(
    rows: u32,
    heights: &[i32],
    threshold: u32,
    work: &mut [u8],
    table: &mut [Peak],
) -> Result<u32, Refusal>
    ensures { Lists rows heights.now threshold work.old work.new
        table.old table.new result }
{
    let count = flat(rows, heights, threshold, work, table.len())?;
    table::fill(table, work, heights.len(), words::index(count));
    Ok(count)
}
