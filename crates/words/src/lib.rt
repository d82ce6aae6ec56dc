// 32-bit numbers in lent bytes, little-endian, reached by their place.
#![tactic(auto)]

ghost use Rattle.std.specs.Prelude.{◌≡◌, ◌+◌, ◌*◌, ◌<◌, ◌≤◌, length};
ghost use Rattle.words.specs.Words.{word_at, Stored};

// The number at the i-th place.
#[tactic(auto, unfolding(crate::specs::Words::word_at))]
pub fn get(s: &[u8], i: usize) -> u32
    requires { 4 * i + 4 ≤ length s.now }
    ensures { result ≡ word_at s.now i }
{
    let at = 4 * i;
    u32::from_le_bytes([s[at], s[at + 1], s[at + 2], s[at + 3]])
}

// Puts a number at the i-th place. The compiler makes the four stores one; with `copy_from_slice` a list of blank cells
// takes 1.77 of what plain C++ takes, where 1.3 is allowed.
pub fn put(s: &mut [u8], i: usize, v: u32)
    requires { 4 * i + 4 ≤ length s.old }
    ensures { Stored s.old s.new i v }
{
    let at = 4 * i;
    let [a, b, c, d] = v.to_le_bytes();
    s[at] = a;
    s[at + 1] = b;
    s[at + 2] = c;
    s[at + 3] = d;
}

// A number of the work area as an index. There is no `usize: From<u32>`: it is the cast, with a name whose clause the
// proofs of the callers cite (`c.index.ensures`).
pub fn index(v: u32) -> usize
    ensures { result ≡ v }
{
    v as usize
}

// The product of two numbers. 64 bits hold it, and one number more.
pub fn times(a: u32, b: u32) -> usize
    ensures { (result ≡ a * b) × (result ≤ 18446744065119617025) }
{
    a as usize * b as usize
}

// A number of 32 bits that was an index or a length. It is the cast: `u32::try_from` would test what `requires` says.
pub fn narrow(v: usize) -> u32
    requires { v < 4294967296 }
    ensures { result ≡ v }
{
    v as u32
}
