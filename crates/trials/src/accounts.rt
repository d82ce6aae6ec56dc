// On made-up grids, that both listers answer an account call of any cell alike, by the account or by the refusal that
// it must get, and that they say the same to the account and to changed ones.
use crate::changed::{last, longer, lowered, moved, raised, repeated, wandering, without};
use crate::random::{CELLS, Drawn};
use lent::answers::narrow;
use lent_accounts::{Asked, Rooms, no_account};
use second_accounts::Account;

// What both listers say to an account; none where they differ.
pub type Verdict = Option<Result<bool, u32>>;

// A call about a cell of a grid, and an account of it.
#[derive(Clone, Copy)]
struct Case<'a> {
    asked: Asked,
    heights: &'a [i32],
    account: Account<'a>,
}

// Whether they agree on every cell, those that are not there too.
pub fn agree(drawn: &Drawn) -> bool {
    (0..CELLS + 1).all(|cell| cell_agrees(drawn, cell))
}

// Whether the check says that to some account whose path is changed.
pub fn changed_gets(verdict: Verdict, drawn: &Drawn) -> bool {
    (0..CELLS).filter(|cell| is_peak(drawn, *cell)).any(|cell| {
        let given = second_accounts::account(drawn.rows, drawn.heights(), cell);
        Case::of(drawn, cell, given.account()).path_gets(verdict)
    })
}

fn is_peak(drawn: &Drawn, cell: usize) -> bool {
    second::is_peak(drawn.rows, drawn.heights(), cell)
}

// Whether they agree on a cell.
fn cell_agrees(drawn: &Drawn, cell: usize) -> bool {
    if is_peak(drawn, cell) {
        let given = second_accounts::account(drawn.rows, drawn.heights(), cell);
        Case::of(drawn, cell, given.account()).peak_agrees()
    } else {
        Case::of(drawn, cell, no_account()).other_agrees()
    }
}

impl<'a> Case<'a> {
    // A call about a cell with a work area that is just enough. No cell that is asked about is above `CELLS`.
    fn of(drawn: &'a Drawn, cell: usize, account: Account<'a>) -> Case<'a> {
        let heights = drawn.heights();
        let cell = cell.min(CELLS) as u32;
        Case {
            asked: Asked::enough(narrow(drawn.rows), heights.len(), cell),
            heights,
            account,
        }
    }
}

impl Case<'_> {
    // Whether they agree on a cell that is no peak's: 17 before 18.
    fn other_agrees(self) -> bool {
        self.call_agrees(17) && self.gets(Err(17), Rooms { path: 0, island: 0 })
    }

    // Whether they agree on a peak: that is the account of the second lister.
    fn peak_agrees(self) -> bool {
        self.own_agrees()
            && self.refusals_agree()
            && self.keys_agree()
            && self.paths_agree()
            && self.islands_agree()
    }

    // Whether the first lister gives it too. "The tool's own always passes, and its path visits no cell twice."
    fn own_agrees(self) -> bool {
        self.gets(Ok(()), Rooms::enough(self.heights.len()))
            && self.says(Some(Ok(true)))
            && no_cell_twice(self.account.path)
    }

    // ---- refused calls

    // Whether they agree on calls that are refused: 18, 4, 2 and 1.
    fn refusals_agree(self) -> bool {
        self.rooms_agree()
            && self.byte_short().call_agrees(4)
            && self.with_rows(41).call_agrees(2)
            && self.with_rows(0).call_agrees(1)
            && self.with_rows(1025).call_agrees(1)
    }

    fn call_agrees(self, number: u32) -> bool {
        self.gets(Err(number), Rooms::enough(self.heights.len())) && self.says(Some(Err(number)))
    }

    // A path room with a number too little, and an island room. A grid with a peak has a cell.
    fn rooms_agree(self) -> bool {
        let rooms = Rooms::enough(self.heights.len());
        let short = self.heights.len().saturating_sub(1);
        let path = Rooms {
            path: short,
            ..rooms
        };
        let island = Rooms {
            island: short,
            ..rooms
        };
        self.gets(Err(18), path) && self.gets(Err(18), island)
    }

    fn byte_short(self) -> Self {
        let asked = Asked {
            bytes: self.asked.bytes.saturating_sub(1),
            ..self.asked
        };
        Case { asked, ..self }
    }

    fn with_rows(self, rows: u32) -> Self {
        let asked = Asked { rows, ..self.asked };
        Case { asked, ..self }
    }

    // ---- changed accounts

    // Whether both say no to another key height: a peak has one, or none.
    fn keys_agree(self) -> bool {
        self.declines_key(raised(self.account.key)) && self.declines_key(lowered(self.account.key))
    }

    // Whether both say the same to other paths: yes to one that wanders where there is a key height, no to one that
    // comes back or stands still.
    fn paths_agree(self) -> bool {
        let path = self.account.path;
        let wanders = Some(Ok(self.account.key.is_some()));
        !self.path_gets(None)
            && self.says_of_path(wanders, wandering(path).as_slice())
            && self.says_of_path(Some(Ok(false)), repeated(path, 0).as_slice())
            && self.says_of_path(Some(Ok(false)), repeated(path, last(path)).as_slice())
    }

    // Whether the check says that to the account with some changed path: one without its last number, or with one
    // number moved.
    fn path_gets(self, verdict: Verdict) -> bool {
        let path = self.account.path;
        !path.is_empty()
            && (self.says_of_path(verdict, without(path, last(path)).as_slice())
                || (0..path.len()).any(|place| self.moved_gets(verdict, place)))
    }

    fn moved_gets(self, verdict: Verdict, place: usize) -> bool {
        let path = self.account.path;
        self.says_of_path(verdict, moved(path, place, true).as_slice())
            || self.says_of_path(verdict, moved(path, place, false).as_slice())
    }

    // Whether both say no to other islands: changed at the first place, in the middle and at the last, and with one
    // more.
    fn islands_agree(self) -> bool {
        let island = self.account.island;
        let end = last(island);
        self.island_agrees(0)
            && self.island_agrees(end / 2)
            && self.island_agrees(end)
            && self.declines_island(longer(island).as_slice())
    }

    // Without the number at a place, and with that number moved.
    fn island_agrees(self, place: usize) -> bool {
        let island = self.account.island;
        self.declines_island(without(island, place).as_slice())
            && self.declines_island(moved(island, place, true).as_slice())
            && self.declines_island(moved(island, place, false).as_slice())
    }

    // ---- what both listers say

    // Whether both answer that to an account call.
    fn gets(self, answer: Result<(), u32>, rooms: Rooms) -> bool {
        self.asked.answer(self.heights, rooms, self.account) == Some(answer)
    }

    // Whether that is what the check says to the account.
    fn says(self, verdict: Verdict) -> bool {
        self.says_to(verdict, self.account)
    }

    // The same, to another account.
    fn says_to(self, verdict: Verdict, account: Account) -> bool {
        self.asked.verdict(self.heights, account) == verdict
    }

    // The same, to the account with another path.
    fn says_of_path(self, verdict: Verdict, path: &[u32]) -> bool {
        let account = Account {
            path,
            ..self.account
        };
        self.says_to(verdict, account)
    }

    // Whether both say no to the account with another island, and with another key height.
    fn declines_island(self, island: &[u32]) -> bool {
        let account = Account {
            island,
            ..self.account
        };
        self.says_to(Some(Ok(false)), account)
    }

    fn declines_key(self, key: Option<i32>) -> bool {
        let account = Account {
            key,
            ..self.account
        };
        self.says_to(Some(Ok(false)), account)
    }
}

// Whether no cell is twice in a path: each is where it is first found.
fn no_cell_twice(path: &[u32]) -> bool {
    path.iter().enumerate().all(|(i, cell)| path.iter().position(|other| other == cell) == Some(i))
}
