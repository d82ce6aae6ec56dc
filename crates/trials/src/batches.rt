// On made-up runs, that the batches of the column calls and of End are together the list of the whole grid.
//
// What a call hands out is also compared with what the second lister hands out at that call, the pass cell too.
use crate::random::Drawn;
use lent::answers;
use second::{MAX, Record, Records};

// Whether the batches of the column calls and of End, together, are the list. "Batches and list are compared without"
// the pass cell: "further columns [..] can move its pass cell only to an earlier one".
pub fn agree(drawn: &Drawn) -> bool {
    are_list(drawn, |listed, handed| {
        without_pass(*listed) == without_pass(*handed)
            && listed.pass.unwrap_or(MAX) <= handed.pass.unwrap_or(MAX)
    })
}

// Whether a pass cell of the list is not the one handed out. At the call that handed it out the one of the list, which
// has the key height and touches the island, then led nowhere.
pub fn differ_in_a_pass(drawn: &Drawn) -> bool {
    !are_list(drawn, |listed, handed| listed == handed)
}

fn without_pass(record: Record) -> Record {
    Record {
        pass: None,
        ..record
    }
}

// Whether the records of the list are those that were handed out, in some order. No two records of a list have the same
// cell, so that as many records of which each is found are the same peaks.
fn are_list<F: Fn(&Record, &Record) -> bool>(drawn: &Drawn, same: F) -> bool
    requires { F.IsAlwaysCallable same }
{
    let Some(list) = answers::list(drawn.rows, drawn.heights(), drawn.threshold) else {
        return false;
    };
    let Some(parts) = gathered(drawn) else {
        return false;
    };
    let (list, parts) = (list.as_slice(), parts.as_slice());
    list.len() == parts.len()
        && list
            .iter()
            .all(|listed| parts.iter().any(|handed| same(listed, handed)))
}

// What the column calls and End hand out, in the order of the calls.
fn gathered(drawn: &Drawn) -> Option<Records> {
    let (rows, heights, threshold) = (drawn.rows, drawn.heights(), drawn.threshold);
    let mut parts = Records::new();
    if rows == 0 {
        return None;
    }
    for end in (rows..=heights.len()).step_by(rows) {
        append(
            answers::column(rows, &heights[..end], threshold)?,
            &mut parts,
        );
    }
    append(answers::end(rows, heights, threshold)?, &mut parts);
    Some(parts)
}

// Puts the records of a batch behind those of others.
fn append(batch: Records, parts: &mut Records) {
    for record in batch.as_slice() {
        parts.push(*record);
    }
}
