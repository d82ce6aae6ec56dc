// Where the lines of an outline go: their bytes are counted, or written into lent bytes.
ghost use Rattle.std.specs.Prelude.{◌≡◌, ℕ, ◌+◌, ◌≤◌, List, length};
ghost use Rattle.relief.specs.Outline.{decimal_of};
ghost use Rattle.words.specs.Words.{over};
ghost use Rattle.lines.specs.Sinks.{IsSink, Laid, counter_laws, page_laws};

use crate::numerals::{DIGITS, digits, put_digits};

// A place for bytes, one behind the other. Not std's `fmt::Write`: no clause of that says when a write succeeds, and an
// outline that has room is written whole (`Outlines`).
pub trait Sink {
    // So many more bytes can be put.
    ghost fits: { Self → ℕ → Type 0 };

    // Relates the sink before, the bytes put, and the sink after.
    ghost put_gives: { Self → List ℕ → Self → Type 0 };

    fn put(&mut self, bytes: &[u8])
        requires { fits self.old (length bytes.now) }
        ensures { put_gives self.old bytes.now self.new };

    // Puts a number in decimal: its digits like any bytes, where a sink has no way of its own. Both below have one: the
    // counter works out no digit, and the page puts them straight to their place.
    fn put_number(&mut self, v: u32)
        requires { fits self.old (length (decimal_of v)) }
        ensures { put_gives self.old (decimal_of v) self.new }
    {
        let mut field = [0; DIGITS];
        let count = digits(v);
        put_digits(&mut field, 0, count, v);
        self.put(&field[..count]);
    }

    ghost laws: { IsSink fits put_gives };
}

// Counts the bytes.
#[derive(Drop)]
pub struct Counter {
    pub bytes: usize,
}

impl Sink for Counter {
    ghost fits = { λ s k. s.bytes + k ≤ 18446744073709551615 };

    ghost put_gives = { λ s bs t. t.bytes ≡ s.bytes + length bs };

    fn put(&mut self, bytes: &[u8]) {
        self.bytes += bytes.len();
    }

    fn put_number(&mut self, v: u32) {
        self.bytes += digits(v);
    }

    ghost laws = { counter_laws };
}

// Lays bytes over those of a text from a place on.
// A loop, since `copy_from_slice` calls C's `memcpy`, which an archive for C would then need from outside.
fn lay(text: &mut [u8], at: usize, bytes: &[u8])
    requires { at + length bytes.now ≤ length text.old }
    ensures { text.new ≡ over text.old at bytes.now }
{
    for i in 0..bytes.len() {
        text[at + i] = bytes[i];
    }
}

// Writes the bytes into the text from a place on.
#[derive(Drop)]
pub struct Page<'a> {
    pub text: &'a mut [u8],
    pub at: usize,
}

impl Sink for Page<'_> {
    ghost fits = { λ s k. s.at + k ≤ length s.text.now };

    ghost put_gives = { Laid };

    fn put(&mut self, bytes: &[u8]) {
        lay(self.text, self.at, bytes);
        self.at += bytes.len();
    }

    fn put_number(&mut self, v: u32) {
        let count = digits(v);
        put_digits(self.text, self.at, count, v);
        self.at += count;
    }

    ghost laws = { page_laws };
}
