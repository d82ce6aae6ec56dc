// The outline of the listed peaks: the order in which it has them, and its lines.
use crate::Text;
use crate::parents::{Link, Links};
use second::{Few, Grid, MAX, sets};
use std::fmt;
use std::fmt::Write;

// What is put into an outline: the listed peaks of a grid, by their links, to so many levels.
#[derive(Clone, Copy)]
pub struct Outline<'a> {
    grid: &'a Grid<'a>,
    links: Links,
    listed: u64,
    levels: u32,
}

impl<'a> Outline<'a> {
    // The outline of a grid at a threshold.
    pub fn new(grid: &'a Grid<'a>, threshold: u32, levels: u32) -> Outline<'a> {
        Outline {
            grid,
            links: Links::new(grid),
            listed: grid.listed(threshold),
            levels,
        }
    }
}

impl Outline<'_> {
    // The listed peaks under one, or the tops.
    fn under(&self, upper: Option<usize>) -> u64 {
        sets::such(MAX, |cell| {
            sets::has(self.listed, cell) && self.links.at(cell).map(|link| link.parent) == upper
        })
    }

    // The same in order. "Passes under one peak go by falling height, then pass cell, then child's cell"; "Tops stand
    // in reading order".
    fn children(&self, upper: Option<usize>) -> Few<usize, MAX> {
        let mut cells = sets::in_order(self.under(upper));
        cells
            .as_mut_slice()
            .sort_unstable_by_key(|cell| (self.links.at(*cell), *cell));
        cells
    }

    // Writes the lines of the peaks under one, or of the tops. "a peak's line is followed by its passes, and each pass
    // by the peak it leads down to, to a stated number of levels".
    pub fn write_under(&self, upper: Option<usize>, level: u32, text: &mut Text) -> fmt::Result {
        for peak in self.children(upper).as_slice() {
            if let Some(link) = self.links.at(*peak) {
                write_pass(link, level, text)?;
            }
            self.write_peak(*peak, level, text)?;
            if level < self.levels {
                self.write_under(Some(*peak), level + 1, text)?;
            }
        }
        Ok(())
    }

    // "A line holds the level (a pass has its upper peak's), `peak` or `pass`, cell and height".
    fn write_peak(&self, peak: usize, level: u32, text: &mut Text) -> fmt::Result {
        let Some(height) = self.grid.height_at(peak) else {
            return Ok(());
        };
        writeln!(
            text,
            "{level} peak {peak} {height} {}",
            self.left_out(peak, level)
        )
    }

    // "on a peak's line the number of its direct children left out as too deep": those of a peak at the last level.
    fn left_out(&self, peak: usize, level: u32) -> u32 {
        if level < self.levels {
            0
        } else {
            self.under(Some(peak)).count_ones()
        }
    }
}

// The line of the pass that leads down to a peak.
fn write_pass(link: Link, level: u32, text: &mut Text) -> fmt::Result {
    writeln!(
        text,
        "{} pass {} {}",
        level.saturating_sub(1),
        link.pass,
        link.height()
    )
}
