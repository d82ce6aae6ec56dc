// The run record: how far a run is, what becomes of it, and the tests before the work of each call that takes it.
#![tactic(auto)]

pub mod records; // records.rt: what is read from a run record, and what becomes of it
pub mod tests; // tests.rt: the tests before the work

// What the calls need.
pub use records::{after_column, after_end, held_cells};
pub use tests::{check_column, check_end, check_run};

// A run record: rows, columns taken, threshold and whether the run has ended.
#[derive(Clone, Copy, PartialEq, Eq)]
pub struct Run {
    pub rows: u32,
    pub columns: u32,
    pub threshold: u32,
    pub ended: bool,
}
