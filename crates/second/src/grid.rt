// A grid: its heights, the sets of cells that a height divides, touching cells, and what paths reach.
use crate::{BLANK, MAX, sets};

// A grid, and what is asked of it again and again, worked out once.
#[derive(Clone, Copy)]
pub struct Grid<'a> {
    pub rows: usize,
    pub heights: &'a [i32],
    // For each cell the set of those that touch it.
    pub near: [u64; MAX],
    // The cells of all peaks.
    pub peaks: u64,
}

impl<'a> Grid<'a> {
    // The grid, where this lister takes one of so many rows and cells.
    pub fn supported(rows: usize, heights: &'a [i32]) -> Option<Grid<'a>> {
        is_supported(rows, heights.len()).then(|| Grid::new(rows, heights))
    }

    // The grid of so many rows.
    pub fn new(rows: usize, heights: &'a [i32]) -> Grid<'a> {
        Grid::bare(rows, heights).with_peaks()
    }

    // The grid without its peaks: enough to ask whether one cell is a peak's, and much less work.
    pub(crate) fn bare(rows: usize, heights: &'a [i32]) -> Grid<'a> {
        let cells = heights.len();
        Grid {
            rows,
            heights,
            near: std::array::from_fn(|cell| sets::such(cells, |other| touch(rows, cell, other))),
            peaks: 0,
        }
    }

    // The same grid with its peaks worked out.
    fn with_peaks(self) -> Grid<'a> {
        Grid {
            peaks: sets::such(self.heights.len(), |cell| self.is_peak(cell)),
            ..self
        }
    }

    // The grid without its last column; none where it has no column. Which cells touch is not worked out again: those
    // that are gone have no height, so that no path goes over them.
    pub(crate) fn without_last_column(&self) -> Option<Grid<'a>> {
        let before = self.heights.len().checked_sub(self.rows)?;
        let shorter = Grid {
            heights: &self.heights[..before],
            ..*self
        };
        Some(shorter.with_peaks())
    }
}

impl Grid<'_> {
    // The height of a cell; none for a blank cell, and past the last one.
    pub fn height_at(&self, cell: usize) -> Option<i32> {
        self.heights
            .get(cell)
            .copied()
            .filter(|height| *height != BLANK)
    }

    // The cells with a height that is as asked.
    fn with_height<F: Fn(i32) -> bool>(&self, asked: F) -> u64
        requires { F.IsAlwaysCallable asked }
    {
        sets::such(
            self.heights.len(),
            |cell| self.height_at(cell).is_some_and(|height| asked(height)),
        )
    }

    // The cells that are higher than the floor; without one, all that have a height.
    pub fn higher(&self, floor: Option<i32>) -> u64 {
        self.with_height(|height| Some(height) > floor)
    }

    // The cells that are at or above the floor.
    pub fn at_or_above(&self, floor: i32) -> u64 {
        self.with_height(|height| height >= floor)
    }

    // The cells of that height; no cell is in the set for none.
    pub fn level(&self, height: Option<i32>) -> u64 {
        match height {
            Some(height) => self.with_height(|own| own == height),
            None => 0,
        }
    }

    // The cells that touch some cell of the set. No cell behind the last of the set is looked at. A `for`: by an
    // iterator over `near` the program `trials` takes a quarter more instructions.
    pub fn around(&self, set: u64) -> u64 {
        let mut all = 0;
        for cell in 0..MAX {
            if set >> cell == 0 {
                return all;
            }
            if sets::has(set, cell) {
                all |= self.near[cell];
            }
        }
        all
    }

    // The cells that paths reach which start in `from` and stay in `allowed`. Each turn but the last adds a cell,
    // so that as many turns as cells are enough.
    pub fn reach(&self, allowed: u64, from: u64) -> u64 {
        let mut set = from & allowed;
        for _ in 0..MAX {
            let next = set | (self.around(set) & allowed);
            if next == set {
                return set;
            }
            set = next;
        }
        set
    }
}

// Whether this lister takes a grid of so many rows and cells.
pub(crate) fn is_supported(rows: usize, cells: usize) -> bool {
    rows != 0 && cells <= MAX && cells.is_multiple_of(rows)
}

// "Two cells touch if they differ by at most one in row and at most one in column, and are not the same cell."
fn touch(rows: usize, a: usize, b: usize) -> bool {
    rows != 0 && a != b && (a % rows).abs_diff(b % rows) <= 1 && (a / rows).abs_diff(b / rows) <= 1
}
