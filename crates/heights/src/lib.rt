// A lent grid of heights: the tests before the work, and its levels put into the work area.
#![tactic(auto)]

ghost use Rattle.std.specs.Prelude.{◌≡◌, List, ℤ, ◌<◌, length, get_or};
ghost use Rattle.relief.specs.Heights.{BLANK};
ghost use Rattle.record.specs.Refusals.{first_of};
ghost use Rattle.heights.specs.Grid.{grid_tests};
ghost use Rattle.heights.specs.Inner.{Loading, Loaded};

use record::{Cell, Refusal};

// Heights in reading order, wherever they stand: in a lent row of numbers, or in bytes.
pub trait Heights: Copy {
    ghost heights: { Self → List ℤ };

    // How many they are.
    fn count(self) -> usize
        ensures { result ≡ length (heights self) };

    // What a cell holds.
    fn height(self, cell: usize) -> i32
        requires { cell < length (heights self) }
        ensures { result ≡ get_or (heights self) cell BLANK };
}

impl<'a> Heights for &'a [i32] {
    ghost heights = { λ s. s.now };

    fn count(self) -> usize {
        self.len()
    }

    fn height(self, cell: usize) -> i32 {
        self[cell]
    }
}

// What a cell holds, the blank mark where there is no such cell.
pub fn height_at<H: Heights>(heights: H, cell: usize) -> i32
    ensures { result ≡ get_or (H.heights heights) cell BLANK }
{
    if cell < heights.count() {
        heights.height(cell)
    } else {
        Cell::BLANK
    }
}

// The tests before the work, in the paper's order.
// Each call has its own list of tests, in its clause: the lines are that list, in the paper's order.
#[tactic(auto, unfolding(record::specs::Refusals::first_of, crate::specs::Grid::grid_tests))]
pub fn check(rows: u32, cells: usize, work: usize) -> Result<(), Refusal>
    ensures { result ≡ first_of (grid_tests rows cells work) }
{
    record::refuse_if(record::bad_rows(rows), Refusal::Rows)?;
    record::refuse_if(record::uneven(cells, words::index(rows)), Refusal::Length)?;
    record::refuse_if(Cell::MAX_CELLS < cells, Refusal::Cells)?;
    record::refuse_if(record::short_work(work, cells), Refusal::Work)
}

// Puts the levels of the first `n` heights of a lent row into the first quarter.
// It stands beside `load_from`: a parameter that is a slice also takes an array or a row that is lent to be changed.
pub fn load(work: &mut [u8], heights: &[i32], n: usize)
    requires { Loading work.old heights.now n }
    ensures { Loaded work.old work.new heights.now n }
{
    load_from(work, heights, n);
}

// Puts the levels of the first `n` heights into the first quarter, wherever the heights stand.
pub fn load_from<H: Heights>(work: &mut [u8], heights: H, n: usize)
    requires { Loading work.old (H.heights heights) n }
    ensures { Loaded work.old work.new (H.heights heights) n }
{
    for c in 0..n {
        words::put(work, c, record::level(heights.height(c)));
    }
}
