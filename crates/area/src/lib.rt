// The work area of a grid: four quarters of 32-bit numbers, the marks that they may have, and the order of the cells.
// Lent bytes, and cells as numbers: a caller lends 16 bytes a cell, and nothing else is allocated.
#![tactic(auto)]

ghost use Rattle.std.specs.Prelude.{◌≡◌};
ghost use Rattle.area.specs.Area.{cell_in, mark_in, mark_two_in};

// What a sweep goes over: a grid of `n` cells in columns of `rows` cells, of which those below `limit` are swept.
// `newest` is where the newest ground begins.
#[derive(Clone, Copy)]
pub struct Field {
    pub n: usize,
    pub rows: usize,
    pub limit: usize,
    pub newest: usize,
}

// The cell `x` whose turn it is to be taken, and its level `k`.
// Not one struct with the field and `e`: it goes through memory at each call, 296 instructions a cell for 215 on noise.
#[derive(Clone, Copy)]
pub struct Turn {
    pub x: usize,
    pub k: u32,
}

// The cell in a number that may have marks, which stand beside it since a cell has 32 bits in a quarter.
#[tactic(auto, unfolding(crate::specs::Area::cell_in))]
pub fn cell_in(w: u32) -> usize
    ensures { result ≡ cell_in w }
{
    (w % 1048576) as usize
}

// Whether a number has the first mark.
#[tactic(auto, unfolding(crate::specs::Area::mark_in))]
pub fn mark_in(w: u32) -> bool
    ensures { result ≡ mark_in w }
{
    w / 1048576 % 2 == 1
}

// Whether a number has the second mark. Each mark has its name: a const parameter would put its number at every caller.
#[tactic(auto, unfolding(crate::specs::Area::mark_two_in))]
pub fn mark_two_in(w: u32) -> bool
    ensures { result ≡ mark_two_in w }
{
    w / 2097152 % 2 == 1
}
