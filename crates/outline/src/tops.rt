// The text of a whole outline: the tops in reading order, each with what stands under it.
ghost use Rattle.outline.specs.Inner.{TopPrinting, TopsPrinting, top_print, tops_print};

use crate::printers::peak;
use lines::Sink;

// Prints the cell `c` if it is that of a top.
fn top<S: Sink>(work: &[u8], n: usize, sink: &mut S, c: usize, left: u32)
    requires { TopPrinting work.now n (S.fits sink.old) c left }
    ensures { S.put_gives sink.old (top_print work.now n left c) sink.new }
{
    if kin::is_top(work, n, c) {
        peak(work, n, sink, c, 1, left);
    }
}

// Prints the tops, with so many levels below each.
pub fn tops<S: Sink>(work: &[u8], n: usize, sink: &mut S, left: u32)
    requires { TopsPrinting work.now n (S.fits sink.old) left }
    ensures { S.put_gives sink.old (tops_print work.now n left n) sink.new }
{
    for c in 0..n {
        top(work, n, sink, c, left);
    }
}
