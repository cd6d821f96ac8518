// A call's own words: those that are in sight, by their columns, and where each row's words end.
ghost use Rattle.std.specs.Prelude.{◌≡◌, ◌<◌, get_or};
ghost use Rattle.sheet.specs.Sheet.{most_rows};
ghost use Rattle.sheet.specs.Walk.{blank, InSight, put_two, put_end, tick_by};

use crate::row::Row;
use blocks::{OutputWords, Tick};

// The most rows that a sheet has.
pub(crate) const MOST_ROWS: usize = 16;

// The input words of a tick, and the answer words of a row.
pub(crate) const INPUT_WORDS: usize = 8;

pub(crate) const ROW_ANSWERS: usize = 2;

// The columns that name a word: those of the inputs, and then those of the answers of as many rows as there may be.
const COLUMNS: usize = INPUT_WORDS + ROW_ANSWERS * MOST_ROWS;

// The words in sight by their columns, each 0 until its row has answered; and the ends that the survey noted.
#[derive(Clone, Copy)]
pub struct Seen {
    pub words: [u64; COLUMNS],
    pub ends: [usize; MOST_ROWS],
}

impl Seen {
    // Before anything is in sight.
    pub(crate) fn blank() -> Seen
        ensures { result ≡ blank }
    {
        Seen {
            words: [0; COLUMNS],
            ends: [0; MOST_ROWS],
        }
    }

    // Before any row emits: the tick's inputs.
    pub(crate) fn of(tick: Tick) -> Seen
        ensures { InSight tick result }
    {
        let mut words = [0; COLUMNS];
        words[..INPUT_WORDS].copy_from_slice(&tick.words);
        Seen {
            words,
            ends: [0; MOST_ROWS],
        }
    }

    // The word of a column, where it names one.
    fn word(&self, column: u64) -> u64
        ensures { result ≡ get_or self.now.words column 0 }
    {
        self.words.get(column as usize).copied().unwrap_or(0)
    }

    // The row's own tick: of the words in sight its columns name its inputs.
    #[tactic(auto, unfolding(crate::specs::Walk::tick_by))]
    pub(crate) fn row_tick(&self, time: f64, row: Row) -> Tick
        ensures { result ≡ tick_by time self.now row }
    {
        let first = self.word(row.first);
        let second = self.word(row.second);
        let third = self.word(row.third);
        Tick {
            time,
            words: [first, second, third, 0, 0, 0, 0, 0],
        }
    }

    // The two answer words of row i, behind the inputs and the answers of the rows above it.
    pub(crate) fn put_answer(&mut self, i: usize, two: OutputWords)
        requires { i < most_rows }
        ensures { self.new ≡ put_two i two self.old }
    {
        let at = INPUT_WORDS + ROW_ANSWERS * i;
        self.words[at] = two.first;
        self.words[at + 1] = two.second;
    }

    // Where row i's words end.
    pub(crate) fn put_end(&mut self, i: usize, end: usize)
        requires { i < most_rows }
        ensures { self.new ≡ put_end i end self.old }
    {
        self.ends[i] = end;
    }
}
