// The account of the second lister and its judge, written as `second` is: from the definitions alone, with no code of
// the first.
#![tactic(auto)]

mod accounting; // accounting.rt: the account of a peak's key height, and the judge of any account
mod ways; // ways.rt: ways from cell to touching cell

pub use accounting::{Account, Given, Row};
use second::Grid;

// The account of a peak; nothing is said of a cell that is no peak's.
pub fn account(rows: usize, heights: &[i32], peak: usize) -> Given {
    Given::of(&Grid::new(rows, heights), peak)
}

// Whether that is an account of the peak.
pub fn accepts(rows: usize, heights: &[i32], peak: usize, account: Account) -> bool {
    account.is_of(&Grid::new(rows, heights), peak)
}
