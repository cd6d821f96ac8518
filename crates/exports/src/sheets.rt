// The sheet's calls over words: a row is the block's number, its three columns, then its settings, with room for those of a controller.
ghost use Rattle.std.specs.Prelude.{◌≤◌, ◌≡◌, length};
ghost use Rattle.exports.specs.Sheets.{sheet_crossed, no_sheet, tick_by, words_per_row, settings_read, row_with, rows_named, Bare, Tabled, StartsBy, TicksBy};

use crate::boundary::NO_BLOCK;
use blocks::{Block, CONTROLLER_SETTINGS, Tick, block_of};
use reals::{real_of, word_of_flag};
use sheet::{Row, SheetAnswer, TABLE_ROWS, Table, start, tick};

// Where a row's settings begin, and how many words it has: no block has more settings than a controller.
const SETTINGS_AT: usize = 4;

const WORDS_PER_ROW: usize = SETTINGS_AT + CONTROLLER_SETTINGS;

// The refusal number, the row at fault, and whether any row warned, as 0 or 1.
#[repr(C)]
#[derive(Clone, Copy)]
pub struct SheetWords {
    pub refusal: u64,
    pub row: u64,
    pub warning: u64,
}

// What a sheet answers, in words.
impl From<SheetAnswer> for SheetWords {
    ghost from_gives = { λ a words. words ≡ sheet_crossed a };

    #[tactic(auto, unfolding(crate::specs::Sheets::sheet_crossed))]
    fn from(a: SheetAnswer) -> SheetWords {
        SheetWords {
            refusal: a.refusal,
            row: a.row as u64,
            warning: word_of_flag(a.warning),
        }
    }
}

// The answer where a row names no block.
fn no_sheet() -> SheetWords
    ensures { result ≡ no_sheet }
{
    SheetWords {
        refusal: NO_BLOCK,
        row: 0,
        warning: 0,
    }
}

// The tick of this time with these words.
fn tick_by(time: u64, words: &[u64; 8]) -> Tick
    ensures { result ≡ tick_by time words.now }
{
    Tick {
        time: real_of(time),
        words: *words,
    }
}

// How many of a row's settings a block of this number reads.
#[tactic(auto, unfolding(crate::specs::Sheets::settings_read))]
fn settings_read(number: u64) -> usize
    ensures { result ≡ settings_read number }
{
    match number {
        0 | 1 => CONTROLLER_SETTINGS,
        4 | 5 => 2,
        7 => 3,
        _ => 1,
    }
}

// The row of this block with the columns of its words.
fn row_with(block: Block, words: &[u64]) -> Row
    requires { words_per_row ≤ length words.now }
    ensures { result ≡ row_with words.now block }
{
    Row {
        block,
        first: words[1],
        second: words[2],
        third: words[3],
    }
}

// A row that stands where none is shown.
fn blank() -> Row {
    Row {
        block: Block::TrueHoldWithReset { duration: 0.0 },
        first: 0,
        second: 0,
        third: 0,
    }
}

// A table without rows, that has all its places. Inlined, each of the two calls would have all its words written out.
#[inline(never)]
fn no_table() -> Table
    ensures { Bare result }
{
    Table {
        rows: [blank(); TABLE_ROWS],
        count: 0,
    }
}

// The rows that all words are, as many as a table shows; nothing if the words are not whole rows, or a row names no block. The table is
// lent: in an `Option<Table>` it is copied on the way out, and a start takes 9480 bytes of stack, more than the 8192 that oven.h and
// docs/TRUST.md name. A row's block is copied once, from what `block_of` gives to its place.
#[tactic(auto, using(crate::proofs::Tabling::few_settings))]
fn read_rows<'a>(words: &[u64], table: &'a mut Table) -> Option<&'a [Row]>
    requires { Bare table.old }
    ensures { Tabled (rows_named words.now) result }
{
    if words.len() % WORDS_PER_ROW != 0 {
        return None;
    }
    for row in words.chunks_exact(WORDS_PER_ROW) {
        let number = row[0];
        let stop = SETTINGS_AT + settings_read(number);
        let block = block_of(number, &row[SETTINGS_AT..stop])?;
        if table.count < TABLE_ROWS {
            table.rows[table.count] = row_with(block, row);
        }
        table.count += 1;
    }
    Some(table.shown())
}

// Starts the sheet over these rows. 13 comes first: the words are not whole rows, or a row names no block.
pub fn oven_sheet_start(rows: &[u64], region: &mut [u64]) -> SheetWords
    ensures { StartsBy (rows_named rows.now) region.old result region.new }
{
    let mut table = no_table();
    let Some(read) = read_rows(rows, &mut table) else {
        return no_sheet();
    };
    start(read, region).into()
}

// One tick of the sheet over these rows. 13 comes first, as for a start.
pub fn oven_sheet_tick(
    rows: &[u64],
    time: u64,
    words: &[u64; 8],
    region: &mut [u64],
    answers: &mut [u64],
) -> SheetWords
    ensures { TicksBy (rows_named rows.now) (tick_by time words.now) region.old answers.old result region.new answers.new }
{
    let mut table = no_table();
    let Some(read) = read_rows(rows, &mut table) else {
        return no_sheet();
    };
    tick(read, tick_by(time, words), region, answers).into()
}
