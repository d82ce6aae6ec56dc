// The account of a peak and its check, asked of both listers. Every number of a room for a path or an island holds a
// mark before the call, so that what the call does not count is seen to stay.
#![tactic(auto)]

use account::Given;
use record::Refusal;
use second::{BLANK, MAX, WORK};
use second_accounts::Account;

// What a room holds that no call has filled. No grid of the second lister has such a cell.
const MARK: u32 = 77;

// Which cell is asked about, of a grid of so many rows, with a work area of so many bytes.
#[derive(Clone, Copy)]
pub struct Asked {
    pub rows: u32,
    pub cell: u32,
    pub bytes: usize,
}

// The numbers for which an account call is lent room.
#[derive(Clone, Copy)]
pub struct Rooms {
    pub path: usize,
    pub island: usize,
}

// A room to lend.
type Room = [u32; MAX];

// What the first lister answers, and the rooms after it.
#[derive(Clone, Copy)]
struct Drawn {
    answer: Result<Given, Refusal>,
    path: Room,
    island: Room,
}

// What stands for an account where there is none.
pub fn no_account() -> Account<'static> {
    Account {
        key: None,
        path: &[],
        island: &[],
    }
}

impl Rooms {
    // Rooms that are just enough for so many cells.
    pub fn enough(cells: usize) -> Rooms {
        Rooms {
            path: cells,
            island: cells,
        }
    }
}

impl Asked {
    // A call about a cell with a work area that is just enough for so many cells. There are never more cells than the
    // second lister takes.
    pub fn enough(rows: u32, cells: usize, cell: u32) -> Asked {
        Asked {
            rows,
            cell,
            bytes: cells.min(MAX) * 16,
        }
    }

    // What an account call is answered, where that is the account of the second lister: the number of a refusal as an
    // error. There is no answer where the listers differ, in the account too, or where a number of a room has changed
    // that should not.
    pub fn answer(
        self,
        heights: &[i32],
        rooms: Rooms,
        account: Account,
    ) -> Option<Result<(), u32>> {
        let answer = second_refusals::account_call(
            self.rows,
            heights.len(),
            self.bytes / 4,
            self.is_peak(heights),
            rooms.path,
            rooms.island,
        );
        self.drawn(heights, rooms)
            .tells(answer, account)
            .then_some(answer)
    }

    // What the check says to an account, where both listers say it: yes or no, or the number of a refusal as an error.
    pub fn verdict(self, heights: &[i32], account: Account) -> Option<Result<bool, u32>> {
        let verdict = self.verdict_by_second(heights, account);
        (self.verdict_by_first(heights, account) == verdict).then_some(verdict)
    }

    // Whether the cell is a peak's.
    fn is_peak(self, heights: &[i32]) -> bool {
        second::is_peak(self.rows as usize, heights, self.cell as usize)
    }

    fn verdict_by_second(self, heights: &[i32], account: Account) -> Result<bool, u32> {
        let peak = self.is_peak(heights);
        second_refusals::check_call(self.rows, heights.len(), self.bytes / 4, peak)?;
        Ok(second_accounts::accepts(self.rows as usize, heights, self.cell as usize, account))
    }

    fn verdict_by_first(self, heights: &[i32], account: Account) -> Result<bool, u32> {
        let mut work = [0u8; WORK];
        account::check(
            self.rows,
            heights,
            self.cell,
            account.key.unwrap_or(BLANK),
            account.path,
            account.island,
            &mut work[..self.bytes.min(WORK)],
        )
        .map_err(record::number)
    }

    // What the first lister answers to an account call.
    fn drawn(self, heights: &[i32], rooms: Rooms) -> Drawn {
        let mut work = [0u8; WORK];
        let mut path = [MARK; MAX];
        let mut island = [MARK; MAX];
        let answer = account::account(
            self.rows,
            heights,
            self.cell,
            &mut work[..self.bytes.min(WORK)],
            &mut path[..rooms.path.min(MAX)],
            &mut island[..rooms.island.min(MAX)],
        );
        Drawn {
            answer,
            path,
            island,
        }
    }
}

impl Drawn {
    // Whether the first lister tells what the second one does: the refusal, or the account; and whether all other
    // numbers of the rooms are as they were.
    fn tells(self, answer: Result<(), u32>, account: Account) -> bool {
        match (self.answer, answer) {
            (Ok(Given { key, path, island }), Ok(())) => {
                key == account.key.unwrap_or(BLANK)
                    && path as usize == account.path.len()
                    && island as usize == account.island.len()
                    && holds(&self.path, account.path)
                    && holds(&self.island, account.island)
            }
            (Err(refusal), Err(number)) => {
                record::number(refusal) == number
                    && holds(&self.path, &[])
                    && holds(&self.island, &[])
            }
            _ => false,
        }
    }
}

// Whether a room holds the numbers of a row, and behind them what it held before.
fn holds(room: &Room, row: &[u32]) -> bool {
    room.iter().enumerate().all(|(i, number)| row.get(i).copied().unwrap_or(MARK) == *number)
}
