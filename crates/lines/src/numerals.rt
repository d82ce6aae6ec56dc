// The digits of a number: how many they are, and put into bytes.
ghost use Rattle.std.specs.Prelude.{◌≡◌, ◌+◌, ◌≤◌, ◌<◌, length};
ghost use Rattle.relief.specs.Outline.{decimal_of};
ghost use Rattle.words.specs.Words.{over};

// The most digits that a number of 32 bits has.
pub const DIGITS: usize = 10;

fn digit(v: u32) -> u8
    requires { v < 10 }
    ensures { result ≡ 48 + v }
{
    b'0' + v as u8
}

// How many digits a number has, by few tests.
pub fn digits(v: u32) -> usize
    ensures { result ≡ length (decimal_of v) }
{
    if v < 100000 {
        if v < 100 {
            if v < 10 {
                return 1;
            }
            return 2;
        }
        if v < 1000 {
            return 3;
        }
        if v < 10000 {
            return 4;
        }
        return 5;
    }
    if v < 10000000 {
        if v < 1000000 {
            return 6;
        }
        return 7;
    }
    if v < 100000000 {
        return 8;
    }
    if v < 1000000000 {
        return 9;
    }
    10
}

// Puts the digits of a number, `count` of them, from the last to the first.
// By hand: std prints a number into a `fmt::Write`, whose clauses let any write fail, or into a `String` on the heap.
pub fn put_digits(text: &mut [u8], at: usize, count: usize, v: u32)
    requires { (count ≡ length (decimal_of v)) × (at + count ≤ length text.old) }
    ensures { text.new ≡ over text.old at (decimal_of v) }
{
    let mut place = at + count;
    let mut rest = v;
    // A `while`: how many pairs there are is known only when none is left.
    while 100 <= rest {
        let pair = rest % 100;
        place -= 2;
        text[place + 1] = digit(pair % 10);
        text[place] = digit(pair / 10);
        rest /= 100;
    }
    if 10 <= rest {
        text[at + 1] = digit(rest % 10);
        text[at] = digit(rest / 10);
        return;
    }
    text[at] = digit(rest);
}
