// Which cells of a swept grid are handed out: chosen, collected in the order quarter, and marked there.
#![tactic(auto)]

ghost use Rattle.std.specs.Prelude.{cond, ◌≡◌, ◌+◌, ◌<◌};
ghost use Rattle.area.specs.Area.{Area, order_in, mark_in};
ghost use Rattle.choice.specs.Inner.{wants_part, chosen_in, Choosing, Collecting, Collected, closed_in, Marked};

// The mark beside a cell of the order quarter, one number with it: a cell has 32 bits there.
const MARK: u32 = 1048576;

// Which of the listed peaks are wanted. They are an enum and no closure, since the contracts of the survey name them.
#[derive(Clone, Copy)]
pub enum Part {
    // All of them.
    Whole,
    // Those that are closed.
    Closed,
    // Those that are closed and not marked in the order quarter.
    Closing,
    // Those that are open.
    Open,
}

// Whether a listed peak at `c`, open or closed, is of the part that is wanted.
fn wants(work: &[u8], n: usize, c: usize, part: Part, reaches: bool) -> bool
    requires { Area work.now n × (c < n) }
    ensures { result ≡ wants_part part reaches (mark_in (order_in work.now n c)) }
{
    match part {
        Part::Whole => true,
        Part::Closed => !reaches,
        Part::Closing => !reaches && !area::mark_in(words::get(work, n + c)),
        Part::Open => reaches,
    }
}

// Whether the cell `c` is that of a peak which is listed at the threshold and of the part that is wanted.
pub fn chosen(work: &[u8], n: usize, c: usize, threshold: u32, part: Part) -> bool
    requires { Choosing work.now n c }
    ensures { result ≡ chosen_in work.now n threshold part c }
{
    let level = words::get(work, c);
    if level == 0 {
        return false;
    }
    let w = words::get(work, 3 * n + c);
    if words::get(work, 2 * n + c) as usize == c {
        return wants(work, n, c, part, area::mark_in(w));
    }
    let key = words::get(work, area::cell_in(w));
    level > key
        && record::prominence(record::height(level), record::height(key)) >= threshold
        && wants(work, n, c, part, area::mark_two_in(w))
}

// Collects the chosen cells below the limit into the order quarter, in reading order, and counts them.
pub fn collect(work: &mut [u8], n: usize, limit: usize, threshold: u32, part: Part) -> usize
    requires { Collecting work.old n limit }
    ensures { Collected work.old work.new n limit (chosen_in work.old n threshold part) result }
{
    let mut count = 0;
    for c in 0..limit {
        if chosen(work, n, c, threshold, part) {
            words::put(work, n + count, c as u32);
            count += 1;
        }
    }
    count
}

// Whether `c` is the cell of a closed peak of the first `old` cells.
fn closed_in(work: &[u8], n: usize, old: usize, c: usize) -> bool
    requires { (c < n) × Collecting work.now n old }
    ensures { result ≡ closed_in work.now n old c }
{
    c < old && chosen(work, n, c, 0, Part::Closed)
}

// A number of the order quarter, with a mark or without.
// Not one function with `pass_number` of `joins`: the clause of each names the mark that its quarter has.
fn marked(cell: usize, closed: bool) -> u32
    requires { cell < 1048576 }
    ensures { result ≡ cond closed (cell + 1048576) cell }
{
    if closed {
        cell as u32 + MARK
    } else {
        cell as u32
    }
}

// Marks every cell of a closed peak of the first `old` cells, at its place in the order quarter.
pub fn mark(work: &mut [u8], n: usize, old: usize)
    requires { Collecting work.old n old }
    ensures { Marked work.old work.new n old }
{
    for c in 0..n {
        let cell = area::cell_in(words::get(work, n + c));
        let closed = closed_in(work, n, old, c);
        words::put(work, n + c, marked(cell, closed));
    }
}
