// On made-up grids, that both listers answer an outline call alike: the text, or the refusal that it must get.
use crate::random::Drawn;
use lent::answers::{last_apart, narrow};
use lent_outlines::{Asked, answer, ended};
use run::Run;
use second::{MAX, WORK};
use second_outlines::{TEXT, Text, outline};

// Whether they agree on every call with the grid.
pub fn agree(drawn: &Drawn) -> bool {
    calls_agree(drawn) && part_agrees(drawn) && peaks_agree(drawn)
}

// Whether they agree where the run has taken the whole grid, with refused calls.
fn calls_agree(drawn: &Drawn) -> bool {
    let heights = drawn.heights();
    let text = outline(drawn.rows, heights, drawn.threshold, drawn.levels);
    let asked = Asked {
        run: ended(narrow(drawn.rows), heights.len(), drawn.threshold),
        levels: drawn.levels,
        bytes: heights.len().min(MAX) * 16,
        room: text.as_slice().len(),
    };
    let case = Case {
        asked,
        heights,
        text: &text,
    };
    case.rooms_agree() && case.levels_agree() && case.runs_agree() && case.rows_agree()
}

// Whether they agree where the run has not taken the last column of the grid.
fn part_agrees(drawn: &Drawn) -> bool {
    let (rows, heights) = (narrow(drawn.rows), drawn.heights());
    let (before, _) = last_apart(rows, heights);
    let text = outline(drawn.rows, before, drawn.threshold, drawn.levels);
    let asked = Asked {
        run: ended(rows, before.len(), drawn.threshold),
        levels: drawn.levels,
        bytes: WORK,
        room: TEXT,
    };
    let case = Case {
        asked,
        heights,
        text: &text,
    };
    case.gets(Ok(()), asked)
}

// Whether they agree on the outline of all peaks: only its tops, two or three levels, and all of it.
fn peaks_agree(drawn: &Drawn) -> bool {
    answered(drawn, 1) && answered(drawn, 2) && answered(drawn, 3) && answered(drawn, 64)
}

fn answered(drawn: &Drawn, levels: u32) -> bool {
    answer(drawn.rows, drawn.heights(), 1, levels).is_some()
}

// What is answered where a byte is missing: the refusal, but where none is needed.
fn short_of(needed: usize, number: u32) -> Result<(), u32> {
    if needed == 0 { Ok(()) } else { Err(number) }
}

// A call that is accepted, the heights that are lent to it, and its text.
#[derive(Clone, Copy)]
struct Case<'a> {
    asked: Asked,
    heights: &'a [i32],
    text: &'a Text,
}

impl Case<'_> {
    // Whether they agree where work area and text room are just enough, and where a byte is missing: 4 before 15.
    fn rooms_agree(self) -> bool {
        let asked = self.asked;
        let work = short_of(asked.bytes, 4);
        let room = short_of(asked.room, 15);
        let room_short = Asked {
            room: asked.room.saturating_sub(1),
            ..asked
        };
        let byte_short = Asked {
            bytes: asked.bytes.saturating_sub(1),
            ..asked
        };
        self.gets(Ok(()), asked)
            && self.gets(room, room_short)
            && self.gets(work, byte_short)
            && self.gets(work, roomless(asked))
    }

    // Whether they agree on levels that are refused: 14 before 4.
    fn levels_agree(self) -> bool {
        let asked = self.asked;
        let none = Asked { levels: 0, ..asked };
        let many = Asked {
            levels: 65,
            ..asked
        };
        let most = Asked {
            levels: 4294967295,
            ..roomless(asked)
        };
        self.gets(Err(14), none) && self.gets(Err(14), many) && self.gets(Err(14), most)
    }

    // Whether they agree on a run that has not ended, and on one with a column too many: 9 before 16, 16 before 14.
    fn runs_agree(self) -> bool {
        let asked = self.asked;
        let worse = Asked { levels: 0, ..asked };
        let long = Run {
            columns: asked.run.columns.saturating_add(1),
            ..asked.run
        };
        self.gets(Err(16), of_run(asked, open(asked.run)))
            && self.gets(Err(16), of_run(worse, open(asked.run)))
            && self.gets(Err(9), of_run(asked, long))
            && self.gets(Err(9), of_run(worse, open(long)))
    }

    // Whether they agree on rows that are refused: 1 before 9, which the columns would get.
    fn rows_agree(self) -> bool {
        let asked = self.asked;
        let worse = Asked { levels: 0, ..asked };
        let run = asked.run;
        self.gets(Err(1), of_run(asked, with_rows(run, 0)))
            && self.gets(Err(1), of_run(asked, with_rows(run, 1025)))
            && self.gets(Err(1), of_run(worse, with_rows(open(run), 1025)))
    }

    // Whether both listers give that answer to another call.
    fn gets(self, answer: Result<(), u32>, asked: Asked) -> bool {
        asked.answer(self.heights, self.text) == Some(answer)
    }
}

// ---- other calls

// With no work area and no text room.
fn roomless(asked: Asked) -> Asked {
    Asked {
        bytes: 0,
        room: 0,
        ..asked
    }
}

fn of_run(asked: Asked, run: Run) -> Asked {
    Asked { run, ..asked }
}

// The record of a run before its end.
fn open(run: Run) -> Run {
    Run {
        ended: false,
        ..run
    }
}

// The record of a run with other rows, and with more columns than the grid has.
fn with_rows(run: Run, rows: u32) -> Run {
    Run {
        rows,
        columns: 1025,
        ..run
    }
}
