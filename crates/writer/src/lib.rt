// The run file written, all but the row of records: the answer of `write`, and header and heights in the room.
#![tactic(auto)]

ghost use Rattle.std.specs.Prelude.{[], ◌∷◌, map, ◌≡◌, ◌+◌, ◌*◌, ◌<◌, ◌≤◌, length};
ghost use Rattle.record.specs.Refusals.{granted, first_of, told_by};
ghost use Rattle.layout.specs.Layout.{bits_of, bytes_of, header_of, total_of};
ghost use Rattle.layout.specs.Promises.{written_told, write_tests};
ghost use Rattle.words.specs.Words.{over};
ghost use Rattle.sound.specs.Inner.{index_of};
ghost use Rattle.writer.specs.Inner.{grid_tests, Few, GridPut};

use layout::{bits, put_word};
use record::{Cell, Refusal};

// The tests of the grid: 1, 2, 3.
// Each call has its own list of tests, in its clause: the lines are that list, in the paper's order.
#[tactic(auto, unfolding(record::specs::Refusals::first_of, layout::specs::Promises::write_tests))]
fn check_grid(rows: u32, cells: usize) -> Result<(), Refusal>
    ensures { result ≡ first_of (grid_tests rows cells) }
{
    record::refuse_if(record::bad_rows(rows), Refusal::Rows)?;
    record::refuse_if(record::uneven(cells, words::index(rows)), Refusal::Length)?;
    record::refuse_if(Cell::MAX_CELLS < cells, Refusal::Cells)
}

// The answer of `write`. What it tells of a number fits 32 bits: by then the cells are few, and the sound records are
// no more than cells.
fn plan(
    rows: u32,
    cells: usize,
    n: usize,
    unsound: Option<usize>,
    room: usize,
) -> Result<u32, Refusal>
    requires { Few cells n unsound }
    ensures { written_told result
        ≡ told_by (write_tests rows cells n (index_of unsound n) room) (granted (total_of cells n ∷ [])) }
{
    check_grid(rows, cells)?;
    if let Some(index) = unsound {
        return Err(Refusal::Unsound {
            index: words::narrow(index),
        });
    }
    let total = 24 + 4 * cells + 16 * n;
    let needed = words::narrow(total);
    record::refuse_if(room < total, Refusal::Room { needed })?;
    Ok(needed)
}

// One by one, as document 01 lists them: an array of six and a loop would be longer.
fn put_header(room: &mut [u8], rows: u32, cells: usize, n: usize)
    requires { (total_of cells n ≤ length room.old) × ((total_of cells n < 4294967296) × (0 < rows)) }
    ensures { room.new ≡ over room.old 0 (bytes_of (header_of rows cells n)) }
{
    let columns = cells / words::index(rows);
    let offset = 24 + 4 * cells;
    let total = offset + 16 * n;
    put_word(room, 0, rows);
    put_word(room, 1, words::narrow(columns));
    put_word(room, 2, words::narrow(n));
    put_word(room, 3, 24);
    put_word(room, 4, words::narrow(offset));
    put_word(room, 5, words::narrow(total));
}

fn put_heights(room: &mut [u8], heights: &[i32])
    requires { 24 + 4 * length heights.now ≤ length room.old }
    ensures { room.new ≡ over room.old 24 (bytes_of (map bits_of heights.now)) }
{
    for (i, height) in heights.iter().enumerate() {
        put_word(room, 6 + i, bits(*height));
    }
}

// Decides the answer of `write` for so many records and, unless it is a refusal, puts header and heights.
pub fn put_grid(
    rows: u32,
    heights: &[i32],
    n: usize,
    unsound: Option<usize>,
    room: &mut [u8],
) -> Result<u32, Refusal>
    requires { Few (length heights.now) n unsound }
    ensures { GridPut rows heights.now n (index_of unsound n) room.old room.new result }
{
    let total = plan(rows, heights.len(), n, unsound, room.len())?;
    put_header(room, rows, heights.len(), n);
    put_heights(room, heights);
    Ok(total)
}
