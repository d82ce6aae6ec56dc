// One call, accepted or refused, of both listers: what is asked of them and what they tell is compared.
use lent::first;
use lent::first::grown;
use run::Run;
use second::{MAX, Records, WORK};
use second_refusals::{column_call, end_call, list_call};

// What a call is lent beside its grid: a work area of so many bytes, and a table of so many records.
#[derive(Clone, Copy)]
pub struct Lent {
    pub bytes: usize,
    pub room: usize,
}

impl Lent {
    // What is just enough for a grid of so many cells with so many records.
    pub fn enough(cells: usize, count: usize) -> Lent {
        Lent {
            bytes: cells.min(MAX) * 16,
            room: count,
        }
    }

    // A work area with a byte too little, or none at all.
    pub fn byte_short(self) -> Lent {
        Lent {
            bytes: self.bytes.saturating_sub(1),
            ..self
        }
    }

    // A table with a record too little, or none at all.
    pub fn room_short(self) -> Lent {
        Lent {
            room: self.room.saturating_sub(1),
            ..self
        }
    }

    // No work area and no table.
    pub fn none() -> Lent {
        Lent { bytes: 0, room: 0 }
    }

    // As the second lister's refusals go by it, where so many records are needed.
    fn needing(self, records: &Records) -> second_refusals::Lent {
        second_refusals::Lent {
            work: self.bytes / 4,
            room: self.room,
            needed: records.as_slice().len(),
        }
    }
}

// Whether the listers agree on a list call, where the second one has listed these records.
// Heights, threshold and what is lent come apart, since each call takes its own of them.
pub fn list_agrees(
    rows: u32,
    heights: &[i32],
    threshold: u32,
    lent: Lent,
    records: &Records,
) -> bool {
    let mut work = [0u8; WORK];
    let area = &mut work[..lent.bytes.min(WORK)];
    let told = first::whole(rows, heights, threshold, area, lent.room);
    told.tells(
        list_call(rows, heights.len(), lent.needing(records)),
        records,
    )
}

// Offers a column, where the second lister hands out these records: the run record after it, if the listers agree.
pub fn offer(
    run: Run,
    offered: &[i32],
    grid: &mut [i32],
    lent: Lent,
    records: &Records,
) -> Option<Run> {
    let mut work = [0u8; WORK];
    let area = &mut work[..lent.bytes.min(WORK)];
    let answer = column_call(grown(run, grid.len()), offered.len(), lent.needing(records));
    let step = first::column(run, offered, grid, area, lent.room);
    (step.told.tells(answer, records) && step.run == after_column(run, answer)).then_some(step.run)
}

// Whether the listers agree on an end call, where the second one hands out these records.
pub fn end_agrees(run: Run, grid: &[i32], lent: Lent, records: &Records) -> bool {
    let mut work = [0u8; WORK];
    let area = &mut work[..lent.bytes.min(WORK)];
    let step = first::end(run, grid, area, lent.room);
    let answer = end_call(grown(run, grid.len()), lent.needing(records));
    step.told.tells(answer, records) && step.run == after_end(run, answer)
}

// "the record counts one more"; "A refusal returns the run record as it came".
fn after_column(run: Run, answer: Result<(), u32>) -> Run {
    match answer {
        Ok(()) => Run {
            columns: run.columns.saturating_add(1),
            ..run
        },
        Err(_) => run,
    }
}

// "End marks the run ended".
fn after_end(run: Run, answer: Result<(), u32>) -> Run {
    Run {
        ended: run.ended || answer.is_ok(),
        ..run
    }
}
