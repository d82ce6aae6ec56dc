// The run record: what is read from it, and what becomes of it. No other file makes one.
ghost use Rattle.std.specs.Prelude.{◌≡◌, ◌+◌, ◌<◌};
ghost use Rattle.running.specs.Running.{held_of, growing_run, column_run, end_run};

use crate::Run;
use record::Refusal;

impl Run {
    // The record of a run that has taken so many columns and has not ended.
    pub fn growing(rows: u32, columns: u32, threshold: u32) -> Run
        ensures { result ≡ growing_run rows columns threshold }
    {
        Run {
            rows,
            columns,
            threshold,
            ended: false,
        }
    }
}

// The cells of a run that its grid holds.
pub fn held_cells(run: Run) -> usize
    ensures { result ≡ held_of run }
{
    words::times(run.columns, run.rows)
}

// The record after Column's answer: with one column more, unless it is refused.
pub fn after_column(run: Run, handed: Result<u32, Refusal>) -> Run
    requires { run.columns + 1 < 4294967296 }
    ensures { result ≡ column_run handed run }
{
    match handed {
        Ok(_) => Run {
            columns: run.columns + 1,
            ..run
        },
        Err(_) => run,
    }
}

// The record after End's answer: that of a run that has ended, unless it is refused.
pub fn after_end(run: Run, handed: Result<u32, Refusal>) -> Run
    ensures { result ≡ end_run handed run }
{
    match handed {
        Ok(_) => Run { ended: true, ..run },
        Err(_) => run,
    }
}
