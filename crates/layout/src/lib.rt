// The run file in bytes: its numbers, its heights and its records, what reading it comes to, and what the calls for C
// share.
#![tactic(auto)]

ghost use Rattle.std.specs.Prelude.{◌≡◌, ◌*◌};

pub mod handed; // handed.rt: what the calls for C share
mod numbers; // numbers.rt: the two's complement of a height, a number in four bytes
pub mod records; // records.rt: one record in bytes, and a row laid into bytes
pub mod views; // views.rt: heights and records that stand in bytes

// What other crates call.
pub use handed::{answer_number, hand_out, refused_number};
pub use numbers::{bits, put_word, signed};
pub use records::{lay_records, peak_from, put_peak};
pub use views::{HeightsIn, RecordsIn};

// What a file that is read holds: the counts of its run.
#[derive(Clone, Copy, Debug, PartialEq, Eq)]
pub struct ReadBack {
    pub rows: u32,
    pub columns: u32,
    pub peaks: u32,
}

impl ReadBack {
    // The number of cells.
    pub fn cells(self) -> usize
        ensures { result ≡ self.rows * self.columns }
    {
        words::times(self.rows, self.columns)
    }
}
