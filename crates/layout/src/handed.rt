// What the calls for C share: an answer as one signed number, and records handed out as bytes.
ghost use Rattle.std.specs.Prelude.{◌≡◌};
ghost use Rattle.record.specs.Refusals.{told_of, handed_told};
ghost use Rattle.layout.specs.Promises.{signed_told};
ghost use Rattle.layout.specs.Inner.{Handable, HandedOut};

use crate::records::lay_records;
use record::Refusal;
use table::Listed;

// Minus the number of a refusal.
pub fn refused_number(refusal: Refusal) -> i64
    ensures { result ≡ signed_told (told_of refusal) }
{
    0 - record::number(refusal) as i64
}

// The count that is handed out, or minus the number of a refusal.
pub fn answer_number(answer: Result<u32, Refusal>) -> i64
    ensures { result ≡ signed_told (handed_told answer) }
{
    match answer {
        Ok(count) => count as i64,
        Err(refusal) => refused_number(refusal),
    }
}

// Lays the records that an answer hands out, which stand in the work area of so many cells, into a table of bytes, and
// answers the signed number.
pub fn hand_out(table: &mut [u8], work: &[u8], cells: usize, handed: Result<u32, Refusal>) -> i64
    requires { Handable handed work.now cells table.old }
    ensures { HandedOut handed work.now cells table.old table.new result }
{
    match handed {
        Ok(count) => {
            let listed = Listed {
                work,
                n: cells,
                count: words::index(count),
            };
            lay_records(table, 0, listed);
            count as i64
        }
        Err(refusal) => refused_number(refusal),
    }
}
