// Calls for the benchmark to time beside the list: the run file written and read. They are there to be measured from
// C++, which lends no row of records (`Peak` has no layout of C): records go as bytes in the file's layout, as they do
// at the C entry, and the answer is one signed number. A C interface for all calls will replace them.
#![tactic(auto)]

ghost use Rattle.meter_files.specs.Promises.{MeterWrites, MeterReads};
ghost use Rattle.meter_files.specs.Inner.{FileRead};

use layout::RecordsIn;
use record::Refusal;

// Writes a run file: `runfile::write`, of a row lent as bytes. The answer is the number of bytes, or minus the refusal
// number.
#[unsafe(no_mangle)]
pub extern "C" fn meter_write(rows: u32, heights: &[i32], records: &[u8], room: &mut [u8]) -> i64
    ensures { MeterWrites rows heights.now records.now room.old room.new result }
{
    let row = RecordsIn {
        bytes: records,
        at: 0,
        count: records.len() / 16,
    };
    layout::answer_number(runfile::write_from(rows, heights, row, room))
}

// Reads a run file: `runfile::read`, with `lay_records` in place of `take`. The answer is the record count.
// It stands beside `read`: one function of both would be handed what puts the records, and be no plainer than this.
fn read(file: &[u8], heights: &mut [i32], table: &mut [u8]) -> Result<u32, Refusal>
    ensures { FileRead file.now heights.old heights.new table.old table.new result }
{
    let run = reader::take_grid(file, heights, table.len() / 16)?;
    let records = RecordsIn {
        bytes: file,
        at: 6 + run.cells(),
        count: words::index(run.peaks),
    };
    layout::lay_records(table, 0, records);
    Ok(run.peaks)
}

// The answer is the record count, or minus the refusal number; rows and columns stand in the file's header.
#[unsafe(no_mangle)]
pub extern "C" fn meter_read(file: &[u8], heights: &mut [i32], table: &mut [u8]) -> i64
    ensures { MeterReads file.now heights.old heights.new table.old table.new result }
{
    layout::answer_number(read(file, heights, table))
}
