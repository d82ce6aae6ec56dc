// The pieces of a line: a number, a height, and what both lines begin with.
ghost use Rattle.std.specs.Prelude.{[], ◌∷◌, ◌++◌, length};
ghost use Rattle.relief.specs.Outline.{decimal_of, sign_of};
ghost use Rattle.relief.specs.Heights.{height_of};
ghost use Rattle.lines.specs.Lines.{front_of};

use crate::sinks::Sink;

// The level of the height 0.
const ZERO: u32 = 2147483648;

// A number in decimal, and the byte behind it.
pub fn number<S: Sink>(sink: &mut S, v: u32, end: u8)
    requires { S.fits sink.old (length (decimal_of v ++ end ∷ [])) }
    ensures { S.put_gives sink.old (decimal_of v ++ end ∷ []) sink.new }
{
    sink.put_number(v);
    sink.put(&[end]);
}

// A height by its level, with its sign if it is negative, and the byte behind it.
fn height<S: Sink>(sink: &mut S, level: u32, end: u8)
    requires { S.fits sink.old (length (sign_of (height_of level) ++ end ∷ [])) }
    ensures { S.put_gives sink.old (sign_of (height_of level) ++ end ∷ []) sink.new }
{
    if ZERO <= level {
        number(sink, level - ZERO, end);
    } else {
        sink.put(b"-");
        number(sink, ZERO - level, end);
    }
}

// What both lines begin with: a depth, a name with a space behind it, a cell, its height by its level, and the byte
// behind it.
pub fn front<S: Sink>(sink: &mut S, depth: u32, name: &[u8], cell: u32, level: u32, end: u8)
    requires { S.fits sink.old (length (front_of depth name.now cell level end)) }
    ensures { S.put_gives sink.old (front_of depth name.now cell level end) sink.new }
{
    number(sink, depth, b' ');
    sink.put(name);
    number(sink, cell, b' ');
    height(sink, level, end);
}
