// Key heights and rows that are changed in one number, or in how many they have.
use second::{BLANK, MAX};
use second_accounts::Row;

// The key height that is one higher; the lowest height where there was none.
pub fn raised(key: Option<i32>) -> Option<i32> {
    of_level(level_of(key).wrapping_add(1))
}

// The key height that is one lower; none where it was the lowest height.
pub fn lowered(key: Option<i32>) -> Option<i32> {
    of_level(level_of(key).wrapping_sub(1))
}

// The level of a key height. Level 0 is that of a missing one.
fn level_of(key: Option<i32>) -> u32 {
    record::level(key.unwrap_or(BLANK))
}

// The key height of a level.
fn of_level(level: u32) -> Option<i32> {
    Some(record::height(level)).filter(|key| *key != BLANK)
}

// The row with the number at a place made one more, or one less. The least and the greatest number are beside each
// other.
// A flag: of a closure each of four calls would name a method of `u32`.
pub fn moved(row: &[u32], place: usize, above: bool) -> Row {
    let mut next = Row::from(row);
    if let Some(number) = next.as_mut_slice().get_mut(place) {
        *number = if above {
            number.wrapping_add(1)
        } else {
            number.wrapping_sub(1)
        };
    }
    next
}

// The row without the number at a place.
pub fn without(row: &[u32], place: usize) -> Row {
    let mut next = Row::new();
    for (i, number) in row.iter().enumerate() {
        if i != place {
            next.push(*number);
        }
    }
    next
}

// The row with a number behind it that is one more than its last one.
pub fn longer(row: &[u32]) -> Row {
    let mut next = Row::from(row);
    next.push(number_at(row, last(row)).wrapping_add(1));
    next
}

// The row with one of its numbers once more behind it.
pub fn repeated(row: &[u32], place: usize) -> Row {
    let mut next = Row::from(row);
    next.push(number_at(row, place));
    next
}

// The path with a step to its second cell and back before it.
pub fn wandering(path: &[u32]) -> Row {
    let mut next = Row::new();
    next.push(number_at(path, 0));
    next.push(number_at(path, 1));
    for number in path {
        next.push(*number);
    }
    next
}

// The number at a place of a row; `MAX`, which is no cell, where the row has no such place.
fn number_at(row: &[u32], place: usize) -> u32 {
    row.get(place).copied().unwrap_or(MAX as u32)
}

// The last place of a row; the first one where it has none.
pub fn last(row: &[u32]) -> usize {
    row.len().saturating_sub(1)
}
