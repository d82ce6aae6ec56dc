// Heights and records that stand in bytes, one behind the other.
ghost use Rattle.std.specs.Prelude.{◌+◌, ◌*◌, ◌≤◌, length};
ghost use Rattle.layout.specs.Layout.{heights_from, peaks_from};

use crate::numbers::signed;
use crate::records::peak_from;
use heights::Heights;
use record::Peak;
use table::Records;

// So many heights, the first of which is the number at the place `at`.
#[derive(Clone, Copy)]
pub struct HeightsIn<'a> {
    pub bytes: &'a [u8],
    pub at: usize,
    pub count: usize,
    ghost fits: { 4 * at + 4 * count ≤ length bytes.now },
}

impl<'a> Heights for HeightsIn<'a> {
    ghost heights = { λ s. heights_from s.bytes.now s.at s.count };

    fn count(self) -> usize {
        self.count
    }

    fn height(self, cell: usize) -> i32 {
        signed(words::get(self.bytes, self.at + cell))
    }
}

// So many records, the first number of which has the place `at`.
// Not one view with `HeightsIn`: a height is one number and a record four, each read by a definition of its own.
#[derive(Clone, Copy)]
pub struct RecordsIn<'a> {
    pub bytes: &'a [u8],
    pub at: usize,
    pub count: usize,
    ghost fits: { 4 * at + 16 * count ≤ length bytes.now },
}

impl<'a> Records for RecordsIn<'a> {
    ghost records = { λ s. peaks_from s.bytes.now s.at s.count };

    fn count(self) -> usize {
        self.count
    }

    fn record(self, i: usize) -> Peak {
        peak_from(self.bytes, self.at + 4 * i)
    }
}
