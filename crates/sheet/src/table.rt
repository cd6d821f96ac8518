// A sheet whose rows come by value: for callers that have plain parameters.
ghost use Rattle.std.specs.Prelude.{◌≡◌};
ghost use Rattle.sheet.specs.Sheet.{SheetStarted, SheetTicked};
ghost use Rattle.sheet.specs.Table.{rows_of};

use crate::row::{Row, SheetAnswer};
use crate::seen::MOST_ROWS;
use crate::{start, tick};
use blocks::Tick;

// The places of a table: one more than a sheet may have rows, so that too many are still seen.
pub const TABLE_ROWS: usize = MOST_ROWS + 1;

// The first `count` of the rows, or all of them where `count` is larger.
#[derive(Clone, Copy)]
pub struct Table {
    pub rows: [Row; TABLE_ROWS],
    pub count: usize,
}

impl Table {
    // The rows that it shows, lent.
    pub fn shown(&self) -> &[Row]
        ensures { result.now ≡ rows_of self.now }
    {
        &self.rows[..self.count.min(TABLE_ROWS)]
    }
}

// `start` over a table's rows.
pub fn start_table(table: Table, region: &mut [u64]) -> SheetAnswer
    ensures { SheetStarted (rows_of table) region.old result region.new }
{
    start(table.shown(), region)
}

// `tick` over a table's rows.
pub fn tick_table(table: Table, by: Tick, region: &mut [u64], answers: &mut [u64]) -> SheetAnswer
    ensures { SheetTicked by (rows_of table) region.old answers.old result region.new answers.new }
{
    tick(table.shown(), by, region, answers)
}
