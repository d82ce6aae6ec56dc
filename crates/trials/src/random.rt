// Made-up grids: everything about grid number n is drawn from n alone, so that a difference can be run again.
use second::BLANK;

// The greatest number of cells of a made-up grid.
pub const CELLS: usize = 40;

// The kind of a grid is the remainder of its number by this; from the second one on all are divided.
const KINDS: u64 = 7;

const DIVIDED: u64 = 5;

// What is drawn for a number: a grid, which a run grows to, and with it a threshold and levels of an outline.
// `cells` beside the array: a column to be offered beyond the grid is taken from it too.
#[derive(Clone, Copy)]
pub struct Drawn {
    pub rows: usize,
    pub threshold: u32,
    pub levels: u32,
    cells: usize,
    filled: [i32; CELLS],
}

impl Drawn {
    // Few values, many ties, blanks and the two extremes, by the kind of the grid.
    pub fn new(n: u64) -> Drawn {
        Drawn::of(n, |cell| height_of(n, cell, draw(n, cell)))
    }

    // Heights of which no two are equal, with some blanks.
    pub fn apart(n: u64) -> Drawn {
        Drawn::of(n, |cell| apart(draw(n, cell), cell))
    }

    // The grid whose cells have these heights.
    fn of<F: Fn(u64) -> i32>(n: u64, height: F) -> Drawn
        requires { F.IsAlwaysCallable height }
    {
        Drawn {
            rows: rows_of(n),
            threshold: threshold_of(n),
            levels: levels_of(n),
            cells: cells_of(n),
            filled: std::array::from_fn(|cell| height(cell as u64)),
        }
    }

    // The heights of the grid.
    pub fn heights(&self) -> &[i32] {
        &self.filled[..self.cells.min(CELLS)]
    }

    // As many heights as a column has, to be offered beyond the grid.
    pub fn column(&self) -> &[i32] {
        &self.filled[..self.rows.min(CELLS)]
    }
}

// One step of a shift register of 64 bits (xorshift).
fn step(x: u64) -> u64 {
    let a = x ^ (x << 13);
    let b = a ^ (a >> 7);
    b ^ (b << 17)
}

// The draw at a place of grid number n.
fn draw(n: u64, place: u64) -> u64 {
    let start = (n % 65536 * 64 + place % 64) * 2654435761 + 88172645463325252;
    step(step(step(start))) / 65536
}

// The number of rows, 1 to 8.
fn rows_of(n: u64) -> usize {
    (draw(n, 40) % 8) as usize + 1
}

// The number of cells, whole columns and at most `CELLS`.
fn cells_of(n: u64) -> usize {
    let most = most_of(n);
    most - most.checked_rem(rows_of(n)).unwrap_or(0)
}

// The number of cells if columns need not be whole. A divided grid has as many as it can, for passes to move.
fn most_of(n: u64) -> usize {
    if n % KINDS >= DIVIDED {
        CELLS
    } else {
        (draw(n, 41) % 41) as usize
    }
}

// The threshold, small ones twice as often.
fn threshold_of(n: u64) -> u32 {
    match draw(n, 42) % 10 {
        0 => 0,
        1 | 2 => 1,
        3 | 4 => 2,
        5 | 6 => 3,
        7 => 500000000,
        8 => 4294967294,
        _ => 4294967295,
    }
}

// The levels of an outline, 1 to 64.
fn levels_of(n: u64) -> u32 {
    (draw(n, 43) % 64) as u32 + 1
}

// The height of a cell of a grid of that number, by its draw.
fn height_of(n: u64, cell: u64, drawn: u64) -> i32 {
    match n % KINDS {
        0 => of_three(drawn),
        1 => of_six(drawn),
        2 => of_extremes(drawn),
        3 => of_many(drawn),
        4 => of_few(drawn),
        _ => of_divided(rows_of(n) as u64, cell, drawn),
    }
}

fn of_three(drawn: u64) -> i32 {
    match drawn % 3 {
        0 => 4,
        1 => 5,
        _ => 6,
    }
}

fn of_six(drawn: u64) -> i32 {
    match drawn % 6 {
        0 => BLANK,
        1 => -2,
        2 => -1,
        3 => 0,
        4 => 1,
        _ => 2,
    }
}

fn of_extremes(drawn: u64) -> i32 {
    match drawn % 7 {
        0 => BLANK,
        1 => 2147483647,
        2 => -2147483647,
        3 => 2147483646,
        4 => -2147483646,
        _ => 0,
    }
}

fn of_many(drawn: u64) -> i32 {
    if drawn % 9 == 0 {
        BLANK
    } else {
        (drawn / 9 % 16) as i32
    }
}

// Few heights, so far apart that most peaks are listed at most thresholds.
fn of_few(drawn: u64) -> i32 {
    match drawn % 9 {
        0 | 1 | 2 => BLANK,
        3 | 4 => 1000000000,
        5 => 2000000000,
        _ => 0,
    }
}

// Low ground with hills and summits here and there, divided by row 1, which is blank but for a gate at its beginning,
// as high as a hill. The gate is a peak that low ground touches on both sides, and its pass is on a side that leads to
// a summit, often over hills. If that is the later side and a summit comes on the earlier one too, the pass moves
// there.
fn of_divided(rows: u64, cell: u64, drawn: u64) -> i32 {
    if cell == 1 {
        0
    } else if rows != 0 && cell % rows == 1 {
        BLANK
    } else {
        of_land(drawn)
    }
}

fn of_land(drawn: u64) -> i32 {
    match drawn % 15 {
        0 | 1 => 1000000000,
        2 => 0,
        _ => -1000000000,
    }
}

// A height that no other cell has: its remainder by 64 is the cell, and with its bits turned round it is below zero.
fn apart(drawn: u64, cell: u64) -> i32 {
    let height = drawn / 8 % 16777216 * 64 + cell % 64;
    match drawn % 8 {
        0 => BLANK,
        1 | 2 | 3 => !(height as i32),
        _ => height as i32,
    }
}
