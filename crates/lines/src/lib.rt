// The lines of an outline, counted or written into lent bytes.
#![tactic(auto)]

mod numerals; // numerals.rt: the digits of a number
mod pieces; // pieces.rt: a number, a height, what both lines begin with
mod sinks; // sinks.rt: where the lines go
#[cfg(test)]
mod tests; // tests.rt: a sink that has no way of its own to put a number

ghost use Rattle.std.specs.Prelude.{length};
ghost use Rattle.relief.specs.Outline.{peak_line, pass_line};

use crate::pieces::{front, number};
pub use crate::sinks::{Counter, Page, Sink};

// The line of a peak: its depth, its cell, its height by its level, and how many children are left out.
pub fn peak_line<S: Sink>(sink: &mut S, depth: u32, cell: u32, level: u32, out: u32)
    requires { S.fits sink.old (length (peak_line depth cell level out)) }
    ensures { S.put_gives sink.old (peak_line depth cell level out) sink.new }
{
    front(sink, depth, b"peak ", cell, level, b' ');
    number(sink, out, b'\n');
}

// The line of a pass: the depth of its upper peak, its cell, its height by its level.
pub fn pass_line<S: Sink>(sink: &mut S, depth: u32, cell: u32, level: u32)
    requires { S.fits sink.old (length (pass_line depth cell level)) }
    ensures { S.put_gives sink.old (pass_line depth cell level) sink.new }
{
    front(sink, depth, b"pass ", cell, level, b'\n');
}
