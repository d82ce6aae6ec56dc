// Numbers as the file has them: the two's complement of a height, a number in its four bytes.
ghost use Rattle.std.specs.Prelude.{◌≡◌, ◌+◌, ◌*◌, ◌≤◌, length};
ghost use Rattle.layout.specs.Layout.{bits_of, signed_of, word_of};
ghost use Rattle.words.specs.Words.{over};

// The two's complement of a height.
// A cast of the library with a name: the clause has the file's own definition. So is `signed`.
pub fn bits(height: i32) -> u32
    ensures { result ≡ bits_of height }
{
    height.cast_unsigned()
}

// The height with these bits.
pub fn signed(bits: u32) -> i32
    ensures { result ≡ signed_of bits }
{
    bits.cast_signed()
}

// Puts a number at the i-th place of four bytes.
// It is `words::put` in the words by which lists of bytes are laid (`over`), which the proofs of its callers cite.
pub fn put_word(room: &mut [u8], i: usize, v: u32)
    requires { 4 * i + 4 ≤ length room.old }
    ensures { room.new ≡ over room.old (4 * i) (word_of v) }
{
    words::put(room, i, v);
}
