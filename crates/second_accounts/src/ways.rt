// Ways from cell to touching cell within a set of cells.
use crate::Row;
use second::{Grid, MAX, sets};

// The cells from which a shorter way within `allowed` leads to the goal than from the cell: those at the goal, next to
// it, and so on, up to where they first touch the cell. None where no way leads there.
fn nearer(grid: &Grid, allowed: u64, cell: usize, goal: usize) -> u64 {
    let mut set = sets::only(goal) & allowed;
    for _ in 0..MAX {
        let around = grid.around(set);
        if sets::has(around, cell) {
            return set;
        }
        set |= around & allowed;
    }
    0
}

// Of all ways within `allowed` a shortest one, and of the shortest the first: where two first differ, the one with the
// earlier cell. So each step goes to the earliest cell that is nearer to the goal.
pub fn first_way(grid: &Grid, allowed: u64, from: usize, goal: usize) -> Row {
    let mut row = Row::new();
    let mut cell = from;
    for _ in 0..MAX {
        row.push(cell.min(MAX) as u32);
        if cell == goal {
            return row;
        }
        let beside = grid.around(sets::only(cell));
        let Some(next) = sets::earliest(beside & nearer(grid, allowed, cell, goal)) else {
            return row;
        };
        cell = next;
    }
    row
}

// Whether the row is a way within `allowed`, each cell touching the next, that goes from a cell to some cell of the
// goal.
pub fn is_way(grid: &Grid, allowed: u64, from: usize, goal: u64, row: &[u32]) -> bool {
    row.first().is_some_and(|first| *first as usize == from)
        && row.iter().all(|cell| sets::has(allowed, *cell as usize))
        && row
            .iter()
            .zip(row.iter().skip(1))
            .all(|(cell, next)| touch(grid, *cell, *next))
        && row
            .last()
            .is_some_and(|last| sets::has(goal, *last as usize))
}

// Whether two cells of a row touch.
fn touch(grid: &Grid, a: u32, b: u32) -> bool {
    sets::has(grid.around(sets::only(a as usize)), b as usize)
}
