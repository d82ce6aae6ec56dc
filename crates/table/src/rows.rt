// Records in a row, wherever they stand, and a lent row filled with them.
ghost use Rattle.std.specs.Prelude.{◌≡◌, ◌++◌, ◌<◌, ◌≤◌, List, length, drop, get_or};
ghost use Rattle.relief.specs.Heights.{BLANK};
ghost use Rattle.record.specs.declared.Peak.{Peak};
ghost use Rattle.record.specs.Records.{without_key};
ghost use Rattle.table.specs.Inner.{records_in, Standing, Fillable};

use crate::record_at;
use record::Peak;

// Records in a row, wherever they stand: in a lent row, in bytes, or in the work area.
// Not one trait with `Heights`: each names what stands behind the last item, a blank or a record without a key.
pub trait Records: Copy {
    ghost records: { Self → List Peak };

    // How many they are.
    fn count(self) -> usize
        ensures { result ≡ length (records self) };

    // The i-th of them.
    fn record(self, i: usize) -> Peak
        requires { i < length (records self) }
        ensures { result ≡ get_or (records self) i (without_key 0 BLANK) };
}

impl<'a> Records for &'a [Peak] {
    ghost records = { λ s. s.now };

    fn count(self) -> usize {
        self.len()
    }

    fn record(self, i: usize) -> Peak {
        self[i]
    }
}

// The records of the first `count` cells of the order, in a work area of `n` cells.
#[derive(Clone, Copy)]
pub struct Listed<'a> {
    pub work: &'a [u8],
    pub n: usize,
    pub count: usize,
    ghost standing: { Standing work.now n count },
}

impl<'a> Records for Listed<'a> {
    ghost records = { λ s. records_in s.work.now s.n s.count };

    fn count(self) -> usize {
        self.count
    }

    fn record(self, i: usize) -> Peak {
        record_at(self.work, self.n, i)
    }
}

// Puts records at the first places of a lent row. The others stay as they were.
pub fn take<R: Records>(table: &mut [Peak], records: R)
    requires { length (R.records records) ≤ length table.old }
    ensures { table.new ≡ R.records records ++ drop (length (R.records records)) table.old }
{
    for i in 0..records.count() {
        table[i] = records.record(i);
    }
}

// Fills the first `count` records of the order into a lent row. The others stay as they were.
pub fn fill(table: &mut [Peak], work: &[u8], n: usize, count: usize)
    requires { Fillable table.old work.now n count }
    ensures { table.new ≡ records_in work.now n count ++ drop count table.old }
{
    take(table, Listed { work, n, count });
}
