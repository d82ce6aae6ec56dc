// The account of a peak's key height, and the judge of any account: request (iii) of document 02.
ghost use Rattle.std.specs.Prelude.{◌≡◌};
ghost use Rattle.second.specs.Listed.{listed};

use crate::ways;
use second::{Few, Grid, MAX, sets};

// A row of cells, in which an account has its path and its island. No account that this lister gives has more of them
// than there is room for.
pub type Row = Few<u32, MAX>;

// What an account says: the key height, where there is one, the path and the island.
#[derive(Clone, Copy)]
pub struct Account<'a> {
    pub key: Option<i32>,
    pub path: &'a [u32],
    pub island: &'a [u32],
}

// An account that this lister gives, with its rows.
#[derive(Clone, Copy)]
pub struct Given {
    pub key: Option<i32>,
    pub path: Row,
    pub island: Row,
}

impl Given {
    // "the tool gives an account: the key height, a path from the peak's cell to outranking ground that stays at or
    // above it, and the island in reading order".
    pub(crate) fn of(grid: &Grid, peak: usize) -> Given {
        let key = grid.key_height(peak);
        Given {
            key,
            path: path_of(grid, peak, key).unwrap_or(Row::new()),
            island: in_order(grid.island(peak, key)),
        }
    }

    // What it says.
    pub fn account(&self) -> Account<'_>
        ensures key { result.key ≡ self.now.key }
        ensures path { result.path.now ≡ listed self.now.path }
        ensures island { result.island.now ≡ listed self.now.island }
    {
        Account {
            key: self.key,
            path: self.path.as_slice(),
            island: self.island.as_slice(),
        }
    }
}

// The path leads to the peak's parent; none without a key height.
fn path_of(grid: &Grid, peak: usize, key: Option<i32>) -> Option<Row> {
    let region = grid.region(peak, key?);
    let parent = grid.top(grid.peaks & region)?;
    Some(ways::first_way(grid, region, peak, parent))
}

// The cells of a set "in reading order".
// By itself: an account's cells are numbers of 32 bits, and those of `sets::in_order` indices.
fn in_order(set: u64) -> Row {
    let mut row = Row::new();
    for cell in (0..MAX as u32).filter(|cell| sets::has(set, *cell as usize)) {
        row.push(cell);
    }
    row
}

impl Account<'_> {
    // "A small check accepts any such account from any source, and no other": "nothing on it outranks", "it" being the
    // island.
    pub(crate) fn is_of(self, grid: &Grid, peak: usize) -> bool {
        let goal = grid.outranking(peak);
        let own = grid.island(peak, self.key);
        self.leads_out(grid, peak, goal)
            && self.island == in_order(own).as_slice()
            && own & goal == 0
    }

    // Whether the path is "from the peak's cell to outranking ground" and "stays at or above" the key height; "Without
    // one the path is empty."
    fn leads_out(self, grid: &Grid, peak: usize, goal: u64) -> bool {
        match self.key {
            Some(key) => ways::is_way(grid, grid.at_or_above(key), peak, goal, self.path),
            None => self.path.is_empty(),
        }
    }
}
