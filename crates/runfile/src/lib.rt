// Writing and reading the run file.
#![tactic(auto)]

ghost use Rattle.runfile.specs.Promises.{Writes, Reads};

use layout::{ReadBack, RecordsIn};
use record::{Peak, Refusal};
use table::Records;

// Writes the run file of a grid and a lent row of records into a lent room, and answers the number of its bytes.
// It stands beside `write_from`: a parameter that is a slice also takes an array or a row that is lent to be changed.
pub fn write(rows: u32, heights: &[i32], records: &[Peak], room: &mut [u8]) -> Result<u32, Refusal>
    ensures { Writes rows heights.now records.now room.old room.new result }
{
    write_from(rows, heights, records, room)
}

// Writes the run file of a grid and a row of records, wherever the records stand.
pub fn write_from<R: Records>(
    rows: u32,
    heights: &[i32],
    records: R,
    room: &mut [u8],
) -> Result<u32, Refusal>
    ensures { Writes rows heights.now (R.records records) room.old room.new result }
{
    let unsound = sound::first_unsound(heights, records);
    let total = writer::put_grid(rows, heights, records.count(), unsound, room)?;
    layout::lay_records(room, 6 + heights.len(), records);
    Ok(total)
}

// Reads a run file: hands back rows, columns and the number of peaks, and fills a lent row of heights and a lent table.
pub fn read(file: &[u8], heights: &mut [i32], table: &mut [Peak]) -> Result<ReadBack, Refusal>
    ensures { Reads file.now heights.old heights.new table.old table.new result }
{
    let run = reader::take_grid(file, heights, table.len())?;
    let records = RecordsIn {
        bytes: file,
        at: 6 + run.cells(),
        count: words::index(run.peaks),
    };
    table::take(table, records);
    Ok(run)
}
