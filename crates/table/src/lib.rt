// The records that a survey leaves in the work area, and records filled into a lent row.
#![tactic(auto)]

pub mod rows; // rows.rt: records in a row, wherever they stand

ghost use Rattle.std.specs.Prelude.{◌≡◌, ◌<◌};
ghost use Rattle.area.specs.Area.{order_in};
ghost use Rattle.table.specs.Inner.{Pointed, peak_in, room_answer};

use record::{Peak, Refusal};
pub use rows::{Listed, Records, fill, take};

// The record of the peak at the cell `c`.
pub fn peak_at(work: &[u8], n: usize, c: usize) -> Peak
    requires { Pointed work.now n c }
    ensures { result ≡ peak_in work.now n c }
{
    let cell = words::narrow(c);
    let level = words::get(work, c);
    let height = record::height(level);
    let parent = words::get(work, 2 * n + c);
    if parent == cell {
        return Peak::without_key(cell, height);
    }
    let pass = area::cell_in(words::get(work, 3 * n + c));
    let below = words::get(work, pass);
    let key = record::height(below);
    Peak::with_key(cell, height, key, words::narrow(pass))
}

// The record of the i-th cell of the order.
pub fn record_at(work: &[u8], n: usize, i: usize) -> Peak
    requires { (i < n) × Pointed work.now n (order_in work.now n i) }
    ensures { result ≡ peak_in work.now n (order_in work.now n i) }
{
    peak_at(work, n, words::index(words::get(work, n + i)))
}

// The answer of a call whose work is done, for so many records and the room of the table.
pub fn room_answer(count: usize, room: usize) -> Result<u32, Refusal>
    requires { count < 4294967296 }
    ensures { result ≡ room_answer room count }
{
    let needed = words::narrow(count);
    if room < count {
        Err(Refusal::Table { needed })
    } else {
        Ok(needed)
    }
}
