// What a walk does on one row, on the row's own stretch of the region.
ghost use Rattle.std.specs.Prelude.{◌≡◌, ◌<◌};
ghost use Rattle.dynamics.specs.Answer.{answer_of};
ghost use Rattle.sheet.specs.Sheet.{most_rows, names, in_reach};
ghost use Rattle.sheet.specs.Walk.{Turn, carried, survey_turn, start_turn, emitted_row, updated_row, Left};

use crate::row::Row;
use crate::seen::{INPUT_WORDS, MOST_ROWS, ROW_ANSWERS, Seen};
use crate::walk::Walk;
use blocks::{answer_words, state_length};
use dynamics::{Refusal, Reply, handed_out, number_of};

// Columns below this name the input words; from here on they name the answer words, so many for each row.
const INPUT_COLUMNS: u64 = INPUT_WORDS as u64;

const ROW_COLUMNS: u64 = ROW_ANSWERS as u64;

// What a walk does on each row: the function on all that the walk carries, and the row's turn, which is that function. Region and words
// are lent each by itself: of a struct that holds the lent region no contract says what the region ends as.
pub(crate) trait Pass {
    ghost turned: { Turn };

    fn turn(walk: Walk, i: usize, row: Row, time: f64, region: &mut [u64], seen: &mut Seen) -> Walk
        requires { i < most_rows }
        ensures { Left (turned time i row (carried walk region.old seen.old)) result region.new seen.new };
}

// Whether a column of row i names a word of the tick, or an answer word of a row further up.
fn names(i: usize, column: u64) -> bool
    ensures { result ≡ names i column }
{
    if column < INPUT_COLUMNS {
        return true;
    }
    (column - INPUT_COLUMNS) / ROW_COLUMNS < i as u64
}

// Whether all its columns do: the largest tells.
fn in_reach(i: usize, row: Row) -> bool
    ensures { result ≡ in_reach i row }
{
    names(i, row.first.max(row.second).max(row.third))
}

// The number of what a block answers: 0 where it accepts.
fn number_in(met: Result<Reply, Refusal>) -> u64
    ensures { result ≡ (answer_of met).refusal }
{
    number_of(met)
}

// Whether it warns.
fn warning_in(met: Result<Reply, Refusal>) -> bool
    ensures { result ≡ (answer_of met).warning }
{
    handed_out(met).warning
}

// Tests 1 and 2, and that the row's words lie in the region: test 3, but for words left over. Where they end is noted.
pub(crate) struct Survey;

impl Pass for Survey {
    ghost turned = { survey_turn };

    #[tactic(auto, unfolding(crate::specs::Walk::surveyed_row, crate::specs::Walk::surveyed_ends))]
    fn turn(
        walk: Walk,
        i: usize,
        row: Row,
        _time: f64,
        region: &mut [u64],
        seen: &mut Seen,
    ) -> Walk {
        if !in_reach(i, row) {
            return walk.noted(1, 0);
        }
        let own = state_length(row.block);
        let Ok(length) = own else {
            return walk.noted(number_of(own), i);
        };
        let Some(end) = walk.past(length, region.len()) else {
            return walk.noted(3, 0);
        };
        seen.put_end(i, end);
        walk.moved_to(end)
    }
}

// The row's fresh words.
pub(crate) struct Start;

impl Pass for Start {
    ghost turned = { start_turn };

    #[tactic(auto, unfolding(crate::specs::Walk::started_row))]
    fn turn(
        walk: Walk,
        _i: usize,
        row: Row,
        _time: f64,
        region: &mut [u64],
        _seen: &mut Seen,
    ) -> Walk {
        let length = state_length(row.block).unwrap_or(0);
        let Some(end) = walk.past(length, region.len()) else {
            return walk;
        };
        let _ = blocks::start(row.block, &mut region[walk.at..end]);
        walk.moved_to(end)
    }
}

// The row emits on its own stretch, which is only read.
pub(crate) struct Emit;

impl Pass for Emit {
    ghost turned = { emitted_row };

    #[tactic(auto, unfolding(crate::specs::Walk::emitted_row, crate::specs::Walk::tick_by))]
    fn turn(
        walk: Walk,
        i: usize,
        row: Row,
        time: f64,
        region: &mut [u64],
        seen: &mut Seen,
    ) -> Walk {
        let end = seen.ends[i];
        let Some(own) = region.get(walk.at..end) else {
            return walk;
        };
        let met = blocks::emit(row.block, seen.row_tick(time, row), own);
        seen.put_answer(i, answer_words(row.block, met));
        walk.noted(number_in(met), i).moved_to(end)
    }
}

// The row updates on its own stretch, with the inputs that its emit saw.
pub(crate) struct Update;

impl Pass for Update {
    ghost turned = { updated_row };

    #[tactic(auto, unfolding(crate::specs::Walk::updated_row, crate::specs::Walk::tick_by))]
    fn turn(
        walk: Walk,
        i: usize,
        row: Row,
        time: f64,
        region: &mut [u64],
        seen: &mut Seen,
    ) -> Walk {
        let end = seen.ends[i];
        // No `get_mut` of the range: its contract says nothing of what the region ends as.
        if (end < walk.at) | (region.len() < end) {
            return walk;
        }
        let tick = seen.row_tick(time, row);
        let met = blocks::update(row.block, tick, &mut region[walk.at..end]);
        walk.warned(warning_in(met)).moved_to(end)
    }
}
