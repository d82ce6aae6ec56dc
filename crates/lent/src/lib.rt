// The public calls, lent real rows of records, and the second lister asked beside them.
#![tactic(auto)]

pub mod answers; // answers.rt: one place where answers come from, both listers asked
pub mod files; // files.rt: the run file, written and read
pub mod first; // first.rt: the first lister's calls, its records as the second one's
pub mod row; // row.rt: rows of records to lend
pub mod told; // told.rt: what a call tells, and whether the second lister tells it too
