// Which records are sound in a grid: the test of one record, and the search for the first that is not.
#![tactic(auto)]

ghost use Rattle.std.specs.Prelude.{◌≡◌, ◌+◌, ◌≤◌};
ghost use Rattle.relief.specs.Inner.{Decides};
ghost use Rattle.sound.specs.Sound.{Sound};
ghost use Rattle.sound.specs.Inner.{DecidesKeys, DecidesSound, FoundUnsound};

use heights::Heights;
use record::{Cell, Peak};
use table::Records;

// ---- one record

// Whether both key fields of the record are missing, or neither is and they fit a grid of so many cells, in which its
// pass cell holds `there`.
fn has_fit_keys(cells: usize, p: Peak, there: i32) -> bool
    ensures { DecidesKeys cells p there result }
{
    let key = record::level(p.key);
    let level = record::level(p.height);
    let missing = p.pass == Peak::MISSING_PASS;
    if !p.has_key() {
        return missing;
    }
    if missing || level <= key || cells <= words::index(p.pass) {
        return false;
    }
    record::level(there) == key
}

// Whether the record is sound in a grid of so many cells, in which its cell holds `here` and its pass cell `there`.
fn is_sound(cells: usize, least: usize, p: Peak, here: i32, there: i32) -> bool
    ensures { DecidesSound cells least p here there result }
{
    let cell = words::index(p.cell);
    let level = record::level(p.height);
    let held = Cell { height: here };
    if cells <= cell || cell < least || held.is_blank() || record::level(here) != level {
        return false;
    }
    has_fit_keys(cells, p, there)
}

// Whether the record is sound in that grid, if the record before it leaves it the cells from `least` on.
fn is_sound_in<H: Heights>(heights: H, least: usize, p: Peak) -> bool
    ensures { Decides (Sound (H.heights heights) least p) result }
{
    let here = heights::height_at(heights, words::index(p.cell));
    let there = heights::height_at(heights, words::index(p.pass));
    is_sound(heights.count(), least, p, here, there)
}

// The cell behind that of the record: the least that is left to the next record.
fn next_cell(p: Peak) -> usize
    ensures { (result ≡ p.cell + 1) × (result ≤ 4294967296) }
{
    words::index(p.cell) + 1
}

// ---- a row of records

// The index of the first unsound record, none if all are sound.
pub fn first_unsound<H: Heights, R: Records>(heights: H, records: R) -> Option<usize>
    ensures { FoundUnsound (H.heights heights) (R.records records) result }
{
    let mut least = 0;
    for i in 0..records.count() {
        let p = records.record(i);
        if !is_sound_in(heights, least, p) {
            return Some(i);
        }
        least = next_cell(p);
    }
    None
}
