// Peaks under peaks: the listed peaks of a swept grid linked, each to the passes under it and each pass to its peaks.
#![tactic(auto)]

ghost use Rattle.std.specs.Prelude.{◌≡◌, ◌<◌};
ghost use Rattle.relief.specs.Plane.{plane_of, touch_of};
ghost use Rattle.area.specs.Area.{Area, pass_of};
ghost use Rattle.survey.specs.Answers.{TopsNoted};
ghost use Rattle.choice.specs.Inner.{Choosing};
ghost use Rattle.kin.specs.Kin.{is_top, Kinned};
ghost use Rattle.kin.specs.Inner.{first_in, Hanging, Hung, Hangable, Entered, Filed, FiledCell};
ghost use Rattle.kin.specs.Inner.{Threading, Threaded, Threadable, ThreadedCell};

use choice::Part;

// The links stay numbers of 32 bits, no enum: a caller lends 16 bytes a cell, and nothing else is allocated.

// A link that is no cell.
const END: u32 = 4194304;

// The link of a peak that has no key height.
const TOP: u32 = 8388608;

// The mark of a pass, beside its first peak.
const MARK: u32 = 1048576;

// The first peak of a pass with the number `w` in the parents' quarter.
#[tactic(auto, using(crate::proofs::Numbers::cell_below), unfolding(crate::specs::Inner::first_in))]
fn first(w: u32) -> u32
    ensures { result ≡ first_in w }
{
    if area::mark_in(w) {
        area::cell_in(w) as u32
    } else {
        END
    }
}

// Enters the peak `c` with its link, and with no passes under it as yet.
fn enter(work: &mut [u8], n: usize, c: usize, link: u32)
    requires { Area work.old n × (c < n) }
    ensures { Entered work.old work.new n c link }
{
    words::put(work, 2 * n + c, link);
    words::put(work, 3 * n + c, END);
}

// Puts the peak `c` before the peaks of its pass.
fn hang(work: &mut [u8], n: usize, c: usize)
    requires { Hangable work.old n c }
    ensures { Filed work.old work.new n c (pass_of work.old n c) }
{
    let x = area::cell_in(words::get(work, 3 * n + c));
    enter(work, n, c, first(words::get(work, 2 * n + x)));
    words::put(work, 2 * n + x, c as u32 + MARK);
}

// Sees to the cell `c`: a listed peak is made a top or put before the peaks of its pass.
fn file(work: &mut [u8], n: usize, c: usize, threshold: u32)
    requires { Choosing work.old n c }
    ensures { FiledCell work.old work.new n threshold c }
{
    if choice::chosen(work, n, c, threshold, Part::Whole) {
        if words::get(work, 2 * n + c) as usize == c {
            enter(work, n, c, TOP);
        } else {
            hang(work, n, c);
        }
    }
}

// Hangs the listed peaks at their passes. The last cell comes first, so that the peaks of a pass rise.
fn hang_peaks(work: &mut [u8], n: usize, threshold: u32)
    requires { Hanging work.old n threshold }
    ensures { Hung work.old work.new n threshold 0 }
{
    for c in (0..n).rev() {
        file(work, n, c, threshold);
    }
}

// Sees to the cell `x`: a pass is put before the passes under its upper peak.
fn thread(work: &mut [u8], n: usize, x: usize)
    requires { Threadable work.old n x }
    ensures { ThreadedCell work.old work.new n x }
{
    if area::mark_in(words::get(work, 2 * n + x)) {
        let q = area::cell_in(words::get(work, 3 * n + x));
        words::put(work, 3 * n + x, words::get(work, 3 * n + q));
        words::put(work, 3 * n + q, x as u32);
    }
}

// Threads the passes under their upper peaks. The last place of the order comes first, so that the passes stand in it.
fn thread_passes(work: &mut [u8], n: usize, m: usize)
    requires { Threading work.old n m }
    ensures { Threaded work.old work.new n m 0 }
{
    for i in (0..m).rev() {
        thread(work, n, area::cell_in(words::get(work, n + i)));
    }
}

// Links the peaks that are listed at the threshold. Where all cells are blank there are none. `rows` only says how
// cells touch.
pub fn link(work: &mut [u8], n: usize, m: usize, rows: usize, threshold: u32)
    requires { TopsNoted (touch_of (plane_of rows)) work.old n m }
    ensures { Kinned (touch_of (plane_of rows)) work.old work.new n threshold }
{
    if m > 0 {
        hang_peaks(work, n, threshold);
        thread_passes(work, n, m);
    }
}

// Whether the cell `c` is that of a top. Few cells have the link of one: only for these the level is read.
#[tactic(auto, unfolding(crate::specs::Kin::is_top))]
pub fn is_top(work: &[u8], n: usize, c: usize) -> bool
    requires { Area work.now n × (c < n) }
    ensures { result ≡ is_top work.now n c }
{
    words::get(work, 2 * n + c) == TOP && words::get(work, c) > 0
}
