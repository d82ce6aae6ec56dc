// Answers as text.
use second::{Record, Records};
use std::fmt;

// A value, or a dash where there is none.
#[derive(Clone, Copy)]
pub struct OrDash<T>(pub Option<T>);

impl<T: fmt::Display> fmt::Display for OrDash<T> {
    fn fmt<W: fmt::Write>(&self, f: &mut fmt::Formatter<W>) -> fmt::Result {
        match &self.0 {
            Some(value) => write!(f, "{value}"),
            None => write!(f, "-"),
        }
    }
}

// Cell, height, key height and pass cell of a record.
#[derive(Clone, Copy)]
pub struct Line(pub Record);

impl fmt::Display for Line {
    fn fmt<W: fmt::Write>(&self, f: &mut fmt::Formatter<W>) -> fmt::Result {
        let Record {
            cell,
            height,
            key,
            pass,
        } = self.0;
        write!(f, "{cell} {height} {} {}", OrDash(key), OrDash(pass))
    }
}

// Records with a comma between two.
#[derive(Clone, Copy)]
pub struct Lines<'a>(pub &'a Records);

impl fmt::Display for Lines<'_> {
    fn fmt<W: fmt::Write>(&self, f: &mut fmt::Formatter<W>) -> fmt::Result {
        for (i, record) in self.0.as_slice().iter().enumerate() {
            if i > 0 {
                write!(f, ", ")?;
            }
            write!(f, "{}", Line(*record))?;
        }
        Ok(())
    }
}

// The numbers of a row, each behind a blank, and a dash where it has none.
#[derive(Clone, Copy)]
pub struct Row<'a>(pub &'a [u32]);

impl fmt::Display for Row<'_> {
    fn fmt<W: fmt::Write>(&self, f: &mut fmt::Formatter<W>) -> fmt::Result {
        if self.0.is_empty() {
            write!(f, " -")?;
        }
        for number in self.0 {
            write!(f, " {number}")?;
        }
        Ok(())
    }
}
