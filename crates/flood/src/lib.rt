// A flood: the cells that a start reaches through cells at or above a level, in the order in which they are reached.
#![tactic(auto)]

ghost use Rattle.std.specs.Prelude.{◌≡◌, cond, ◌+◌, ◌*◌, ◌≤◌, ◌<◌, ltb, length};
ghost use Rattle.relief.specs.Plane.{plane_of, touch_of};
ghost use Rattle.relief.specs.Inner.{Decides, Better};
ghost use Rattle.area.specs.Area.{Area, level_in, order_in, parent_in};
ghost use Rattle.places.specs.Places.{neighbour_of};
ghost use Rattle.flood.specs.Flood.{Flooding, Flooded, Queue, BestPlace, BestCell, reached_in};
ghost use Rattle.flood.specs.Inner.{Sieved, Reaching, Reached, Looking, Looked};

use places::Spot;

// A grid of `n` cells in columns of `rows` cells, whose levels stand in the work area.
#[derive(Clone, Copy)]
pub struct Grid {
    pub n: usize,
    pub rows: usize,
    pub ghost rows_some: { 0 < rows },
    pub ghost rows_few: { rows ≤ 1024 },
}

// What the parents' quarter holds of a cell at first: `n` where the cell may be reached, and more where it may not.
// Numbers and no enum: the parents' quarter, which is lent, has 32 bits for a cell.
fn gate(n: usize, level: u32, low: u32) -> u32
    requires { n ≤ 1048576 }
    ensures { result ≡ cond (ltb level low) (n + 1) n }
{
    words::narrow(if level < low { n + 1 } else { n })
}

// Opens the cells at or above `low`, and shuts all others.
fn sieve(work: &mut [u8], n: usize, low: u32)
    requires { Area work.old n }
    ensures { Sieved work.old work.new n low n }
{
    for c in 0..n {
        let level = words::get(work, c);
        words::put(work, 2 * n + c, gate(n, level, low));
    }
}

// The cell at the place `i` of the queue.
pub fn queued(work: &[u8], n: usize, i: usize) -> usize
    requires { Area work.now n × (i < n) }
    ensures { result ≡ order_in work.now n i }
{
    words::index(words::get(work, n + i))
}

// Puts the cell at the i-th place around the cell of the spot, which stands at the place `head` of the queue, behind
// its `tail` cells, if it is there and open.
fn reach(work: &mut [u8], spot: Spot, head: usize, tail: usize, i: usize) -> usize
    requires { Reaching work.old spot.limit head tail i }
    ensures { Reached work.old work.new spot.limit (neighbour_of spot.rows spot.limit spot.x i) head tail result }
{
    let n = spot.limit;
    let Some(y) = spot.neighbour(i) else {
        return tail;
    };
    if words::index(words::get(work, 2 * n + y)) != n {
        return tail;
    }
    words::put(work, 2 * n + y, words::narrow(head));
    words::put(work, n + tail, words::narrow(y));
    tail + 1
}

// Puts the open cells around the cell at the place `head` of the queue behind its `tail` cells.
fn look(work: &mut [u8], grid: Grid, head: usize, tail: usize) -> usize
    requires { Looking (touch_of (plane_of grid.rows)) work.old grid.n head tail }
    ensures { Looked (touch_of (plane_of grid.rows)) work.old work.new grid.n head tail result }
{
    let spot = Spot::new(grid.rows, grid.n, queued(work, grid.n, head));
    let mut last = tail;
    for i in 0..8 {
        last = reach(work, spot, head, last, i);
    }
    last
}

// Floods the cells that `start` reaches through cells at or above `low`, and hands back how many they are. They stand
// in the order quarter, as they are reached; the parents' quarter tells from which place of it.
pub fn flood(work: &mut [u8], grid: Grid, start: usize, low: u32) -> usize
    requires { Flooding work.old grid.n start low }
    ensures { Flooded (touch_of (plane_of grid.rows)) work.old work.new grid.n start low result }
{
    let n = grid.n;
    sieve(work, n, low);
    words::put(work, 2 * n + start, 0);
    words::put(work, n, words::narrow(start));
    let mut tail = 1;
    let mut head = 0;
    // The end of the queue moves while it is gone through, so no range is known before: a `for` would need a `break`.
    while head < tail {
        tail = look(work, grid, head, tail);
        head += 1;
    }
    tail
}

// Whether a flood has reached the cell `c`.
#[tactic(auto, unfolding(crate::specs::Flood::reached_in))]
pub fn is_reached(work: &[u8], n: usize, c: usize) -> bool
    requires { Area work.now n × (c < n) }
    ensures { result ≡ reached_in work.now n c }
{
    words::index(words::get(work, 2 * n + c)) < n
}

// The place in the queue of the cell from which the one at the place `i` was reached.
pub fn came_from(work: &[u8], n: usize, i: usize) -> usize
    requires { Area work.now n × (i < n) × (order_in work.now n i < n) }
    ensures { result ≡ parent_in work.now n (order_in work.now n i) }
{
    words::index(words::get(work, 2 * n + queued(work, n, i)))
}

// Whether the cell `c` is better than the cell `x`: higher, or as high and earlier.
// By hand, as `joins::steps::before` is: that one answers by `prio`, and this decides `Better`.
fn is_better(work: &[u8], c: usize, x: usize) -> bool
    requires { (4 * c + 4 ≤ length work.now) × (4 * x + 4 ≤ length work.now) }
    ensures { Decides (Better (level_in work.now) c x) result }
{
    let k = words::get(work, x);
    let l = words::get(work, c);
    k < l || k == l && c < x
}

// The place of the best cell of the queue: the highest, and of those the earliest.
pub fn best(work: &[u8], n: usize, count: usize) -> usize
    requires { Queue work.now n count }
    ensures { BestPlace work.now n count result }
{
    let mut top = 0;
    for i in 1..count {
        if is_better(work, queued(work, n, i), queued(work, n, top)) {
            top = i;
        }
    }
    top
}

// The best cell that a flood from `start` has reached: the highest, and of those the earliest. The cells are gone
// through in reading order, which is faster than to follow the queue where many are reached. A function generic over
// both walks would have to take the test, the cell at a place and the first one, and be longer than the two.
#[tactic(auto, unfolding(crate::specs::Flood::reached_in))]
pub fn best_cell(work: &[u8], n: usize, start: usize) -> usize
    requires { Area work.now n × (start < n) × (parent_in work.now n start < n) }
    ensures { BestCell work.now n n result }
{
    let mut top = start;
    for c in 0..n {
        if is_reached(work, n, c) && is_better(work, c, top) {
            top = c;
        }
    }
    top
}
