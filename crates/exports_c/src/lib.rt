// libexports.a, the library for C and Rust: the calls of `exports` under the names that include/oven.h declares, each with its clauses.
#![tactic(auto)]

ghost use Rattle.std.specs.Prelude.{◌≡◌};
ghost use Rattle.reals.specs.Words.{real_of, word_of, canonical_word};
ghost use Rattle.reals.specs.Rounding.{magnitude, whole, upward, downward};
ghost use Rattle.dynamics.specs.Region.{Gives};
ghost use Rattle.dynamics.specs.Previous.{previous_of, gap};
ghost use Rattle.dynamics.specs.Leaves.{accumulated, filtered, positive_duration};
ghost use Rattle.blocks.specs.Named.{named_by};
ghost use Rattle.exports.specs.Boundary.{three_inputs};
ghost use Rattle.exports.specs.Calls.{length_said, start_number, start_left, sound_said, decode_said, emit_said, update_said, update_left, tick_said, RunsBy};
ghost use Rattle.exports.specs.Sheets.{rows_named, tick_by, StartsBy, TicksBy};

use exports::boundary::{AnswerWords, LengthWords};
use exports::sheets::SheetWords;
use exports::states::StateWords;
use exports::{calls, leaves, sheets};

// How many words the block's region has.
#[unsafe(no_mangle)]
pub extern "C" fn oven_length(block: u64, settings: &[u64]) -> LengthWords
    ensures { result ≡ length_said (named_by block settings.now) }
{
    calls::oven_length(block, settings)
}

// Writes the words of a fresh block. The refusal number; 0 is accepted.
#[unsafe(no_mangle)]
pub extern "C" fn oven_start(block: u64, settings: &[u64], region: &mut [u64]) -> u64
    ensures { Gives (start_number (named_by block settings.now) region.old) (start_left (named_by block settings.now) region.old) result region.new }
{
    calls::oven_start(block, settings, region)
}

// 1 if the region decodes, else 0.
#[unsafe(no_mangle)]
pub extern "C" fn oven_sound(block: u64, settings: &[u64], region: &[u64]) -> u64
    ensures { result ≡ sound_said (named_by block settings.now) region.now }
{
    calls::oven_sound(block, settings, region)
}

// The region taken apart.
#[unsafe(no_mangle)]
pub extern "C" fn oven_decode(block: u64, settings: &[u64], region: &[u64]) -> StateWords
    ensures { result ≡ decode_said (named_by block settings.now) region.now }
{
    calls::oven_decode(block, settings, region)
}

// The outputs as of this tick; nothing is stored.
#[unsafe(no_mangle)]
pub extern "C" fn oven_emit(
    block: u64,
    settings: &[u64],
    time: u64,
    first: u64,
    second: u64,
    third: u64,
    region: &[u64],
) -> AnswerWords
    ensures { result ≡ emit_said (named_by block settings.now) (real_of time) (three_inputs first second third) region.now }
{
    calls::oven_emit(block, settings, time, first, second, third, region)
}

// Stores this tick.
#[unsafe(no_mangle)]
pub extern "C" fn oven_update(
    block: u64,
    settings: &[u64],
    time: u64,
    first: u64,
    second: u64,
    third: u64,
    region: &mut [u64],
) -> AnswerWords
    ensures { Gives (update_said (named_by block settings.now) (real_of time) (three_inputs first second third) region.old) (update_left (named_by block settings.now) (real_of time) (three_inputs first second third) region.old) result region.new }
{
    calls::oven_update(block, settings, time, first, second, third, region)
}

// A whole tick, an emit and then an update.
#[unsafe(no_mangle)]
pub extern "C" fn oven_tick(
    block: u64,
    settings: &[u64],
    time: u64,
    first: u64,
    second: u64,
    third: u64,
    region: &mut [u64],
) -> AnswerWords
    ensures { Gives (tick_said (named_by block settings.now) (real_of time) (three_inputs first second third) region.old) (update_left (named_by block settings.now) (real_of time) (three_inputs first second third) region.old) result region.new }
{
    calls::oven_tick(block, settings, time, first, second, third, region)
}

// Many whole ticks, the words of each (time and three inputs) one after the other, and so are the words of its answer (those of
// `AnswerWords`). The refusal number of the run: 13, then 14, then 2 and 3 as of a start; 5, 6 and 7 are each tick's own.
#[unsafe(no_mangle)]
pub extern "C" fn oven_run(
    block: u64,
    settings: &[u64],
    ticks: &[u64],
    region: &mut [u64],
    answers: &mut [u64],
) -> u64
    ensures { RunsBy (named_by block settings.now) ticks.now region.old answers.old result region.new answers.new }
{
    calls::oven_run(block, settings, ticks, region, answers)
}

// Starts the sheet over these rows. 13 comes first: the words are not whole rows, or a row names no block.
#[unsafe(no_mangle)]
pub extern "C" fn oven_sheet_start(rows: &[u64], region: &mut [u64]) -> SheetWords
    ensures { StartsBy (rows_named rows.now) region.old result region.new }
{
    sheets::oven_sheet_start(rows, region)
}

// One tick of the sheet over these rows. 13 comes first, as for a start.
#[unsafe(no_mangle)]
pub extern "C" fn oven_sheet_tick(
    rows: &[u64],
    time: u64,
    words: &[u64; 8],
    region: &mut [u64],
    answers: &mut [u64],
) -> SheetWords
    ensures { TicksBy (rows_named rows.now) (tick_by time words.now) region.old answers.old result region.new answers.new }
{
    sheets::oven_sheet_tick(rows, time, words, region, answers)
}

// The word with every NaN made the canonical one.
#[unsafe(no_mangle)]
pub extern "C" fn oven_canonical(w: u64) -> u64
    ensures { result ≡ canonical_word w }
{
    leaves::oven_canonical(w)
}

// The time since the previous tick, whose word may be the unset one.
#[unsafe(no_mangle)]
pub extern "C" fn oven_tick_dt(time: u64, previous: u64) -> u64
    ensures { result ≡ word_of (gap (real_of time) (previous_of previous)) }
{
    leaves::oven_tick_dt(time, previous)
}

// x with slope * dt added on.
#[unsafe(no_mangle)]
pub extern "C" fn oven_accumulate(x: u64, slope: u64, dt: u64) -> u64
    ensures { result ≡ word_of (accumulated (real_of x) (real_of slope) (real_of dt)) }
{
    leaves::oven_accumulate(x, slope, dt)
}

// One step of the one-pole filter toward the input.
#[unsafe(no_mangle)]
pub extern "C" fn oven_filter(x: u64, input: u64, time_const: u64, dt: u64) -> u64
    ensures { result ≡ word_of (filtered (real_of x) (real_of input) (real_of time_const) (real_of dt)) }
{
    leaves::oven_filter(x, input, time_const, dt)
}

// x if it is above zero, else 0.0.
#[unsafe(no_mangle)]
pub extern "C" fn oven_positive_duration(x: u64) -> u64
    ensures { result ≡ word_of (positive_duration (real_of x)) }
{
    leaves::oven_positive_duration(x)
}

// The same size without its sign.
#[unsafe(no_mangle)]
pub extern "C" fn oven_absolute(x: u64) -> u64
    ensures { result ≡ word_of (magnitude (real_of x)) }
{
    leaves::oven_absolute(x)
}

// The least whole number not below x.
#[unsafe(no_mangle)]
pub extern "C" fn oven_ceil(x: u64) -> u64
    ensures { result ≡ word_of (whole upward (real_of x)) }
{
    leaves::oven_ceil(x)
}

// The greatest whole number not above x.
#[unsafe(no_mangle)]
pub extern "C" fn oven_floor(x: u64) -> u64
    ensures { result ≡ word_of (whole downward (real_of x)) }
{
    leaves::oven_floor(x)
}
