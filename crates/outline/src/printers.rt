// The two printers: a peak with its passes, and a pass with its peaks. They call each other, down to the last level.
ghost use Rattle.std.specs.Prelude.{◌≡◌, suc, length};
ghost use Rattle.kin.specs.Kin.{children_in};
ghost use Rattle.outline.specs.Inner.{Hung, PeakPrinting, PassPrinting, peak_print, pass_print};

use crate::linked::{passes_of, peaks_of};
use lines::Sink;

// The number of peaks under the peak q.
fn count_children(work: &[u8], n: usize, q: usize) -> usize
    requires { Hung work.now n q }
    ensures { result ≡ length (children_in work.now n q) }
{
    let mut count: usize = 0;
    for x in passes_of(work, n, q) {
        count += peaks_of(work, n, x).count();
    }
    count
}

// The peak q with what is under it, so many levels down. The last line tells how many are left out.
#[cycle(pass_peak)]
pub fn peak<S: Sink>(work: &[u8], n: usize, sink: &mut S, q: usize, depth: u32, left: u32)
    requires { PeakPrinting work.now n (S.fits sink.old) q depth left }
    ensures { S.put_gives sink.old (peak_print work.now n left depth q) sink.new }
{
    let cell = words::narrow(q);
    let level = words::get(work, q);
    if left == 0 {
        let out = words::narrow(count_children(work, n, q));
        return lines::peak_line(sink, depth, cell, level, out);
    }
    lines::peak_line(sink, depth, cell, level, 0);
    for x in passes_of(work, n, q) {
        pass(work, n, sink, x, depth, left - 1);
    }
}

// The pass x with each of its peaks, which have so many levels below them. Its line stands before each.
#[cycle(pass_peak)]
fn pass<S: Sink>(work: &[u8], n: usize, sink: &mut S, x: usize, depth: u32, left: u32)
    requires { PassPrinting work.now n (S.fits sink.old) x depth left }
    ensures { S.put_gives sink.old
        (pass_print work.now n (peak_print work.now n left (suc depth)) depth x) sink.new }
{
    let cell = words::narrow(x);
    let level = words::get(work, x);
    for p in peaks_of(work, n, x) {
        let below = depth + 1;
        lines::pass_line(sink, depth, cell, level);
        peak(work, n, sink, p, below, left);
    }
}
