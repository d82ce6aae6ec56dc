// A row of records to lend: every entry holds a mark before a call, and those that the call does not fill hold it
// afterwards.
use record::Peak;
use second::{BLANK, MISSING_PASS, Record, Records};

// A row of as many records as the second lister takes.
pub type Row = [Peak; 64];

// What an entry holds that no call has filled. No list has such a record: its key height is above its height.
const MARK: Peak = Peak {
    cell: 77,
    height: -13,
    key: -5,
    pass: 99,
};

// A row that no call has filled.
pub fn marked() -> Row {
    [MARK; 64]
}

// A record in the second lister's form. What is missing is known by the second lister's marks, so that a first lister
// with other marks is seen to differ.
// No `From`: neither type is this crate's.
fn record_of(peak: &Peak) -> Record {
    Record {
        cell: peak.cell as usize,
        height: peak.height,
        key: (peak.key != BLANK).then_some(peak.key),
        pass: (peak.pass != MISSING_PASS).then_some(peak.pass as usize),
    }
}

// Whether the entries from `count` on are as they were.
pub fn kept(row: &Row, count: usize) -> bool {
    row.iter().skip(count).all(|peak| *peak == MARK)
}

// The first `count` entries of a row.
pub fn records(row: &Row, count: usize) -> Records {
    let mut records = Records::new();
    for peak in row.iter().take(count) {
        records.push(record_of(peak));
    }
    records
}

// Whether two rows are equal, entry by entry.
pub fn same(a: &Row, b: &Row) -> bool {
    a == b
}
