// The check of an account, whoever made it: floods, and a walk over each of its rows. The levels of the grid stand in
// the first quarter of the work area; no cell is sorted, swept or listed.
#![tactic(auto)]

ghost use Rattle.std.specs.Prelude.{◌≡◌, ◌<◌, ◌≤◌};
ghost use Rattle.relief.specs.Peaks.{Outranks};
ghost use Rattle.relief.specs.Plane.{Near, plane_of, touch_of};
ghost use Rattle.relief.specs.Accounts.{LeadsOut};
ghost use Rattle.relief.specs.Inner.{Decides, cut, row_below};
ghost use Rattle.area.specs.Area.{Area, level_in};
ghost use Rattle.flood.specs.Flood.{Flooding, reached_in};
ghost use Rattle.audit.specs.Audit.{Auditing, Behind, PeakTold, Judges};
ghost use Rattle.audit.specs.Inner.{Topped, Outranking, StepsAt, Stays, Walking, Leading, Crested, Rowed};

use flood::Grid;

// ---- peaks and outranking ground

// Floods from `c` at or above `low`, and hands back the best cell that is reached.
fn top(work: &mut [u8], grid: Grid, c: usize, low: u32) -> usize
    requires { Flooding work.old grid.n c low }
    ensures { Topped (touch_of (plane_of grid.rows)) work.old work.new grid.n c low result }
{
    flood::flood(work, grid, c, low);
    flood::best_cell(work, grid.n, c)
}

// Whether `c` is a peak's cell: of what it reaches at or above its own level it is the best.
fn is_peak(work: &mut [u8], grid: Grid, c: usize) -> bool
    requires { Area work.old grid.n }
    ensures { PeakTold (touch_of (plane_of grid.rows)) work.old work.new grid.n c result }
{
    if grid.n <= c {
        return false;
    }
    let level = words::get(work, c);
    level != 0 && top(work, grid, c, level) == c
}

// Whether the cell `e` outranks the peak at `p`: it is higher; or it is as high and on a peak's flat, whose first cell
// is before `p`. A cell as high may also be on the flat of `p`, of a later peak, or below higher ground.
fn outranks(work: &mut [u8], grid: Grid, p: usize, e: usize) -> bool
    requires { Outranking work.old grid.n p e }
    ensures { Decides (Outranks (touch_of (plane_of grid.rows)) (cut grid.n (level_in work.old)) p e) result
        × Behind work.old work.new grid.n }
{
    let own = words::get(work, p);
    let level = words::get(work, e);
    if level != own {
        return own < level;
    }
    let q = top(work, grid, e, level);
    words::get(work, q) <= level && q < p
}

// ---- the path

// Whether two numbers differ by at most one.
fn near(x: usize, y: usize) -> bool
    ensures { Decides (Near x y) result }
{
    x.abs_diff(y) <= 1
}

// Whether two cells touch.
fn touches(rows: usize, a: usize, b: usize) -> bool
    requires { 0 < rows }
    ensures { Decides (touch_of (plane_of rows) a b) result }
{
    a != b && near(a % rows, b % rows) && near(a / rows, b / rows)
}

// Whether the number `c` is a cell at or above `k`. It may be no cell: it is compared with `n` before its level is
// read.
fn is_ground(work: &[u8], n: usize, k: u32, c: usize) -> bool
    requires { Area work.now n × (0 < k) }
    ensures { Decides (k ≤ cut n (level_in work.now) c) result }
{
    c < n && k <= words::get(work, c)
}

// Whether the i-th number of the path is a cell at or above `k` that touches the one before it.
fn steps(work: &[u8], grid: Grid, k: u32, path: &[u32], i: usize) -> bool
    requires { Walking work.now grid.n k path.now i }
    ensures { Decides (StepsAt (touch_of (plane_of grid.rows)) (cut grid.n (level_in work.now)) k
        path.now i) result }
{
    let c = words::index(path[i]);
    is_ground(work, grid.n, k, c) && (i == 0 || touches(grid.rows, words::index(path[i - 1]), c))
}

// Whether all of the path is at or above `k`, each cell touching the next.
fn stays(work: &[u8], grid: Grid, k: u32, path: &[u32]) -> bool
    requires { Area work.now grid.n × (0 < k) }
    ensures { Decides (Stays (touch_of (plane_of grid.rows)) (cut grid.n (level_in work.now)) k
        path.now) result }
{
    (0..path.len()).all(|i| steps(work, grid, k, path, i))
}

// Whether the path leads from the peak at `p` to outranking ground and stays at or above `k`.
fn leads(work: &mut [u8], grid: Grid, p: usize, k: u32, path: &[u32]) -> bool
    requires { Leading work.old grid.n p k }
    ensures { Decides (LeadsOut (touch_of (plane_of grid.rows)) (cut grid.n (level_in work.old)) p k
        path.now) result × Behind work.old work.new grid.n }
{
    if path.is_empty() || words::index(path[0]) != p || !stays(work, grid, k, path) {
        return false;
    }
    outranks(work, grid, p, words::index(path[path.len() - 1]))
}

// ---- the island

// Whether the row holds just the cells that the flood has reached, in reading order.
fn same_cells(work: &[u8], n: usize, island: &[u32]) -> bool
    requires { Area work.now n }
    ensures { Decides (island.now ≡ row_below (reached_in work.now n) n) result }
{
    let mut rest = island.iter();
    for c in 0..n {
        if flood::is_reached(work, n, c) && rest.next() != Some(&words::narrow(c)) {
            return false;
        }
    }
    rest.next().is_none()
}

// Floods what `p` reaches above `k`, if it is above `k` itself, and tells whether it is the best cell of that. Then it
// is a peak's, and nothing on its island outranks it.
fn crest(work: &mut [u8], grid: Grid, p: usize, k: u32) -> bool
    requires { Area work.old grid.n × (p < grid.n) }
    ensures { Crested (touch_of (plane_of grid.rows)) work.old work.new grid.n p k result }
{
    k < words::get(work, p) && top(work, grid, p, k + 1) == p
}

// ---- the account

// Whether path and island are those of an account, once what `p` reaches above `k` is flooded.
fn accounts(work: &mut [u8], grid: Grid, p: usize, k: u32, path: &[u32], island: &[u32]) -> bool
    requires { Area work.old grid.n × (p < grid.n) × (k < level_in work.old p) }
    ensures { Rowed (touch_of (plane_of grid.rows)) work.old work.new grid.n p k path.now
        island.now result }
{
    if !same_cells(work, grid.n, island) {
        return false;
    }
    if k == 0 {
        path.is_empty()
    } else {
        leads(work, grid, p, k, path)
    }
}

// Whether this is an account of the peak at `p`: its key level `k`, 0 for none, its path and its island. `None` where
// the cell is no peak's.
// Level 0 stands for no key height: `record::level` makes it of the mark, as `Account` of `relief` has it.
pub fn judge(
    work: &mut [u8],
    n: usize,
    rows: usize,
    p: usize,
    k: u32,
    path: &[u32],
    island: &[u32],
) -> Option<bool>
    requires { Auditing work.old n rows }
    ensures { Judges (touch_of (plane_of rows)) work.old work.new n p k path.now
        island.now result }
{
    if n <= p {
        return None;
    }
    let grid = Grid { n, rows };
    if crest(work, grid, p, k) {
        return Some(accounts(work, grid, p, k, path, island));
    }
    if is_peak(work, grid, p) {
        Some(false)
    } else {
        None
    }
}
