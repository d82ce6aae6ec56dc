// Records in bytes: one at any place, and a row of them laid one behind the other.
ghost use Rattle.std.specs.Prelude.{◌≡◌, ◌+◌, ◌*◌, ◌≤◌, length};
ghost use Rattle.layout.specs.Layout.{bytes_of, fields_of, all_fields_of, peak_from};
ghost use Rattle.words.specs.Words.{over};

use crate::numbers::{bits, put_word, signed};
use record::Peak;
use table::Records;

// The record whose first number has the place `at`.
pub fn peak_from(s: &[u8], at: usize) -> Peak
    requires { 4 * at + 16 ≤ length s.now }
    ensures { result ≡ peak_from s.now at }
{
    let cell = words::get(s, at);
    let height = signed(words::get(s, at + 1));
    let key = signed(words::get(s, at + 2));
    let pass = words::get(s, at + 3);
    Peak::with_key(cell, height, key, pass)
}

// Puts a record, its first number at the place `at`.
pub fn put_peak(s: &mut [u8], at: usize, p: Peak)
    requires { 4 * at + 16 ≤ length s.old }
    ensures { s.new ≡ over s.old (4 * at) (bytes_of (fields_of p)) }
{
    put_word(s, at, p.cell);
    put_word(s, at + 1, bits(p.height));
    put_word(s, at + 2, bits(p.key));
    put_word(s, at + 3, p.pass);
}

// Puts a row of records one behind the other, the first number at the place `at`. The other bytes stay as they were.
pub fn lay_records<R: Records>(bytes: &mut [u8], at: usize, records: R)
    requires { 4 * at + 16 * length (R.records records) ≤ length bytes.old }
    ensures { bytes.new ≡ over bytes.old (4 * at) (bytes_of (all_fields_of (R.records records))) }
{
    for i in 0..records.count() {
        put_peak(bytes, at + 4 * i, records.record(i));
    }
}
