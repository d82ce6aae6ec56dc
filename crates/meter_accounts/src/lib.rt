// Calls for the benchmark to time beside the list: an account given, and an account checked. They are there to be
// measured from C++, and answer one signed number, as the C entry does. A C interface for all calls will replace them.
#![tactic(auto)]

ghost use Rattle.meter_accounts.specs.Promises.{MeterAccounts, MeterChecks};

// Gives the account of a peak: `account::account`. The answer is the level of the key height, 0 for none, or minus the
// refusal number; the counts of both rows are not told.
#[unsafe(no_mangle)]
pub extern "C" fn meter_account(
    rows: u32,
    heights: &[i32],
    cell: u32,
    work: &mut [u8],
    path: &mut [u32],
    island: &mut [u32],
) -> i64
    ensures { MeterAccounts rows heights.now cell work.old work.new
        path.old path.new island.old island.new result }
{
    let accounted = account::account(rows, heights, cell, work, path, island);
    layout::answer_number(accounted.map(|given| record::level(given.key)))
}

// Checks an account of a peak: `account::check`. The answer is 1 for yes, 0 for no, or minus the refusal number.
#[unsafe(no_mangle)]
pub extern "C" fn meter_check(
    rows: u32,
    heights: &[i32],
    cell: u32,
    key: i32,
    path: &[u32],
    island: &[u32],
    work: &mut [u8],
) -> i64
    ensures { MeterChecks rows heights.now cell key path.now island.now
        work.old work.new result }
{
    let verdict = account::check(rows, heights, cell, key, path, island, work);
    layout::answer_number(verdict.map(|good| good as u32))
}
