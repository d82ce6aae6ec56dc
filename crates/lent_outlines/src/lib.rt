// The outline, asked of both listers. Every byte of the text room holds a mark before the call, so that what the call
// does not count is seen to stay.
#![tactic(auto)]

use lent::answers::{narrow, taken};
use lent::files::bytes_kept;
use lent::first::grown;
use lent::told::Told;
use run::Run;
use second::WORK;
use second_outlines::{TEXT, Text};
use second_refusals::Lent;

// An outline call, but for its grid: the run, the levels, a work area and a text room of so many bytes.
#[derive(Clone, Copy)]
pub struct Asked {
    pub run: Run,
    pub levels: u32,
    pub bytes: usize,
    pub room: usize,
}

// The outline of a whole grid, where both listers give it.
pub fn answer(rows: usize, heights: &[i32], threshold: u32, levels: u32) -> Option<Text> {
    let text = second_outlines::outline(rows, heights, threshold, levels);
    let asked = Asked {
        run: ended(narrow(rows), heights.len(), threshold),
        levels,
        bytes: WORK,
        room: TEXT,
    };
    (asked.answer(heights, &text) == Some(Ok(()))).then_some(text)
}

// The record of a run that has ended with so many cells.
pub fn ended(rows: u32, cells: usize, threshold: u32) -> Run {
    Run {
        ended: true,
        ..taken(rows, cells, threshold)
    }
}

impl Asked {
    // What the call is answered, where the outline is that text: the number of a refusal as an error. There is no
    // answer where the listers differ, in the text too, or where a byte has changed that should not.
    pub fn answer(self, grid: &[i32], text: &Text) -> Option<Result<(), u32>> {
        let answer = self.by_second(grid.len(), text.as_slice().len());
        self.by_first(grid).tells(answer, text).then_some(answer)
    }

    // What the second lister answers.
    fn by_second(self, grid: usize, needed: usize) -> Result<(), u32> {
        let lent = Lent {
            work: self.bytes / 4,
            room: self.room,
            needed,
        };
        second_refusals::outline_call(grown(self.run, grid), self.levels, lent)
    }

    // What the first lister tells and writes.
    fn by_first(self, grid: &[i32]) -> Told<Text> {
        let mut work = [0u8; WORK];
        let mut text = [7u8; TEXT];
        let outlined = outline::outline(
            self.run,
            grid,
            self.levels,
            &mut work[..self.bytes.min(WORK)],
            &mut text[..self.room.min(TEXT)],
        );
        Told {
            answer: outlined.map(|bytes| Text::from(&text[..TEXT.min(bytes as usize)])),
            kept: bytes_kept(&text, outlined.unwrap_or(0) as usize),
        }
    }
}
