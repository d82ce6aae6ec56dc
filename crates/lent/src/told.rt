// What a call of the first lister tells, and whether the second one tells it too.
use record::Refusal;
use second::Few;

// What a call answers, and whether all that it does not fill is as it was.
#[derive(Clone, Copy, Drop)]
pub struct Told<T> {
    pub answer: Result<T, Refusal>,
    pub kept: bool,
}

impl<T: Copy + Default + PartialEq, const N: usize> Told<Few<T, N>> {
    // Whether that is what the second lister tells: the refusal, with it the number of items needed where a table is
    // too short, or the items; and whether all else is as it was.
    pub fn tells(&self, refusal: Result<(), u32>, items: &Few<T, N>) -> bool {
        self.kept
            && match (&self.answer, refusal) {
                (Ok(own), Ok(())) => own.as_slice() == items.as_slice(),
                (Err(Refusal::Table { needed }), Err(5)) => {
                    *needed as usize == items.as_slice().len()
                }
                (Err(own), Err(number)) => record::number(*own) == number,
                _ => false,
            }
    }
}

// The number that a refusal also returns: what is needed, or the index of a record.
pub fn also(refusal: Refusal) -> Option<u32> {
    match refusal {
        Refusal::Table { needed } | Refusal::Room { needed } => Some(needed),
        Refusal::Unsound { index } => Some(index),
        _ => None,
    }
}
