// The cells that links in the work area lead through: the peaks of a pass, and the passes under a peak.
ghost use Rattle.std.specs.Prelude.{◌≡◌, List, ℕ};
ghost use Rattle.std.specs.Iterator.{YieldsFirst, item_count};
ghost use Rattle.kin.specs.Kin.{passes_in, peaks_in};
ghost use Rattle.outline.specs.Leads.{links_from, Leads};
ghost use Rattle.outline.specs.Inner.{Strung, Hung};

use std::marker::Model;

// The cells ahead: the number of a cell in the quarter at `from` leads to the next one, and a number that is no cell
// ends them.
#[derive(Drop)]
pub struct Links<'a> {
    work: &'a [u8],
    n: usize,
    from: usize,
    next: usize,
}

impl<'a> Model for Links<'a> {
    ghost Value = { List ℕ };

    ghost view = { λ s. links_from s.work.now s.n s.from s.next };

    ghost invariant = { λ s. Leads s.work.now s.n s.from s.next };
}

// The peaks of the pass x.
pub fn peaks_of<'a>(work: &'a [u8], n: usize, x: usize) -> Links<'a>
    requires { Strung work.now n x }
    ensures { result ≡ peaks_in work.now n x }
{
    let next = area::cell_in(words::get(work, 2 * n + x));
    Links {
        work,
        n,
        from: 2 * n,
        next,
    }
}

// The passes under the peak q.
pub fn passes_of<'a>(work: &'a [u8], n: usize, q: usize) -> Links<'a>
    requires { Hung work.now n q }
    ensures { result ≡ passes_in work.now n q }
{
    let next = words::index(words::get(work, 3 * n + q));
    Links {
        work,
        n,
        from: 3 * n,
        next,
    }
}

impl<'a> Iterator for Links<'a> {
    type Item = usize;

    ghost next_gives = { YieldsFirst (λ cells. cells) };

    ghost remaining = { item_count (λ cells. cells) };

    fn next(&mut self) -> Option<usize> {
        let cell = self.next;
        if self.n <= cell {
            return None;
        }
        self.next = words::index(words::get(self.work, self.from + cell));
        Some(cell)
    }
}
