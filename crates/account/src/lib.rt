// The account of a peak, why its key height is what it is; and the check of any such account.
#![tactic(auto)]

ghost use Rattle.std.specs.Prelude.{◌≡◌, ◌||◌, ltb, length};
ghost use Rattle.account.specs.Promises.{Accounts, Checks};
ghost use Rattle.account.specs.Inner.{Drawable, Drew};

use record::Refusal;

// What the account call gives: the key height, or the mark of a missing one, and how many cells path and island have.
// No `Option`: `key_fits` and `accounted_told` speak of every number, and `check` takes the mark as C hands it over.
#[derive(Clone, Copy, PartialEq, Eq)]
pub struct Given {
    pub key: i32,
    pub path: u32,
    pub island: u32,
}

// Whether a row is refused by 18.
fn short_rows(path: usize, island: usize, cells: usize) -> bool
    ensures { result ≡ (ltb path cells || ltb island cells) }
{
    path < cells || island < cells
}

// The account of the peak at `p`, whose key level is `k`, of the grid of `n` cells whose levels stand in the first
// quarter.
fn draw(
    work: &mut [u8],
    n: usize,
    rows: usize,
    p: usize,
    k: u32,
    path: &mut [u32],
    island: &mut [u32],
) -> Given
    requires { Drawable work.old n rows p k path.old island.old }
    ensures { Drew rows work.old work.new n p path.old path.new
        island.old island.new result }
{
    let cells = drawing::draw_island(work, n, rows, p, k, island);
    let steps = drawing::draw_path(work, n, rows, p, k, path);
    Given {
        key: record::height(k),
        path: words::narrow(steps),
        island: words::narrow(cells),
    }
}

// The account of the peak at `cell` of a grid of `rows` rows: its key height, a path to outranking ground that stays at
// or above it, and its island, written into lent rows. The sweep that gives the key level also tells whether the cell
// is a peak's: a flood for that would be a third one.
pub fn account(
    rows: u32,
    heights: &[i32],
    cell: u32,
    work: &mut [u8],
    path: &mut [u32],
    island: &mut [u32],
) -> Result<Given, Refusal>
    ensures { Accounts rows heights.now cell work.old work.new
        path.old path.new island.old island.new result }
{
    let n = heights.len();
    heights::check(rows, n, work.len())?;
    let p = words::index(cell);
    heights::load(work, heights, n);
    let k = survey::key_level(work, n, words::index(rows), p);
    record::refuse_if(survey::level_at(work, n, p) <= k, Refusal::NoPeak)?;
    let short = short_rows(path.len(), island.len(), n);
    record::refuse_if(short, Refusal::AccountRoom)?;
    Ok(draw(work, n, words::index(rows), p, k, path, island))
}

// Whether key height, path and island are an account of the peak at `cell` of a grid of `rows` rows, whoever made it.
// `key` is the mark of a missing key height where there is none.
pub fn check(
    rows: u32,
    heights: &[i32],
    cell: u32,
    key: i32,
    path: &[u32],
    island: &[u32],
    work: &mut [u8],
) -> Result<bool, Refusal>
    ensures { Checks rows heights.now cell key path.now island.now
        work.old work.new result }
{
    let n = heights.len();
    heights::check(rows, n, work.len())?;
    heights::load(work, heights, n);
    let k = record::level(key);
    let found = audit::judge(
        work,
        n,
        words::index(rows),
        words::index(cell),
        k,
        path,
        island,
    );
    found.ok_or(Refusal::NoPeak)
}
