// The island and the path of an account, written into lent rows.
#![tactic(auto)]

ghost use Rattle.std.specs.Prelude.{◌≡◌, List, ℕ, ◌≤◌, length};
ghost use Rattle.relief.specs.Plane.{plane_of, touch_of};
ghost use Rattle.relief.specs.Inner.{row_below};
ghost use Rattle.area.specs.Area.{Area};
ghost use Rattle.flood.specs.Flood.{reached_in};
ghost use Rattle.drawing.specs.Drawing.{Drawing, Filled, DrawnIsland, DrawnPath};
ghost use Rattle.drawing.specs.Inner.{TrailIn, Trailing};

use flood::Grid;

// Puts the cells that the flood has reached into the row, in reading order, and counts them.
fn put_cells(work: &[u8], n: usize, row: &mut [u32]) -> usize
    requires { Area work.now n × (n ≤ length row.old) }
    ensures { Filled (row_below (reached_in work.now n) n) row.old row.new result }
{
    // The count is the answer, so the row is indexed by it: an iterator over the row would stand beside it.
    let mut count = 0;
    for c in 0..n {
        if flood::is_reached(work, n, c) {
            row[count] = words::narrow(c);
            count += 1;
        }
    }
    count
}

// Draws the island of the peak at `p`, whose key level is `k`, into the row, and counts its cells.
// `n` and `rows` come apart from `account`; the `Grid` of a flood is made where its facts are at hand.
#[tactic(auto, using(words::proofs::Laws::word_below))]
pub fn draw_island(
    work: &mut [u8],
    n: usize,
    rows: usize,
    p: usize,
    k: u32,
    row: &mut [u32],
) -> usize
    requires { Drawing work.old n rows p k row.old }
    ensures { DrawnIsland (touch_of (plane_of rows)) work.old work.new n p k
        row.old row.new result }
{
    flood::flood(work, Grid { n, rows }, p, k + 1);
    put_cells(work, n, row)
}

// How many cells the trail to the place `at` of the queue has.
fn trail_length(work: &[u8], n: usize, at: usize) -> usize
    requires { Trailing work.now n at }
    ensures { (l : List ℕ) → TrailIn work.now n at l → result ≡ length l }
{
    let mut count = 1;
    let mut j = at;
    // The walk follows the queue's links back to its start, so there is no range to go through.
    while 0 < j {
        j = flood::came_from(work, n, j);
        count += 1;
    }
    count
}

// Puts the trail to the place `at` of the queue, which has `len` cells, into the row: its last cell first.
fn put_trail(work: &[u8], n: usize, at: usize, len: usize, row: &mut [u32])
    requires { Trailing work.now n at × (len ≤ n) × (n ≤ length row.old)
        × ((l : List ℕ) → TrailIn work.now n at l → len ≡ length l) }
    ensures { (l : List ℕ) → TrailIn work.now n at l
        → Filled l row.old row.new len }
{
    let mut j = at;
    for i in (0..len).rev() {
        row[i] = words::narrow(flood::queued(work, n, j));
        j = flood::came_from(work, n, j);
    }
}

// Draws a path of the peak at `p`, whose key level is `k`, into the row, and counts its cells: the first way to the
// best cell that it reaches at or above `k`. Without a key height there is none.
// Level 0 stands for no key height: `record::level` makes it of the mark, as `Account` of `relief` has it.
pub fn draw_path(work: &mut [u8], n: usize, rows: usize, p: usize, k: u32, row: &mut [u32]) -> usize
    requires { Drawing work.old n rows p k row.old }
    ensures { DrawnPath (touch_of (plane_of rows)) work.old work.new n p k
        row.old row.new result }
{
    if k == 0 {
        return 0;
    }
    let count = flood::flood(work, Grid { n, rows }, p, k);
    let at = flood::best(work, n, count);
    let len = trail_length(work, n, at);
    put_trail(work, n, at, len, row);
    len
}
