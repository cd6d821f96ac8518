// The calls over words: the block's number and settings first, then a tick's time and three inputs, then the region.
ghost use Rattle.std.specs.Prelude.{◌≡◌};
ghost use Rattle.reals.specs.Words.{real_of};
ghost use Rattle.dynamics.specs.Region.{Gives};
ghost use Rattle.blocks.specs.Named.{named_by};
ghost use Rattle.exports.specs.Boundary.{three_inputs};
ghost use Rattle.exports.specs.Calls.{length_said, start_number, start_left, sound_said, decode_said, emit_said, update_said, update_left, tick_said, RunsBy};

use crate::boundary::{AnswerWords, LengthWords, NO_BLOCK, no_answer, tick_of};
use crate::states::{StateWords, decoded_words, no_state};
use blocks::{block_of, decode, emit, sound, start, state_length, tick, update};
use dynamics::number_of;
use reals::word_of_flag;
use runs::run;

// How many words the block's region has.
#[tactic(auto, unfolding(crate::specs::Calls::by_name))]
pub fn oven_length(block: u64, settings: &[u64]) -> LengthWords
    ensures { result ≡ length_said (named_by block settings.now) }
{
    let Some(b) = block_of(block, settings) else {
        return LengthWords {
            refusal: NO_BLOCK,
            length: 0,
        };
    };
    state_length(b).into()
}

// Writes the words of a fresh block. The refusal number; 0 is accepted.
#[tactic(auto, unfolding(crate::specs::Calls::by_name))]
pub fn oven_start(block: u64, settings: &[u64], region: &mut [u64]) -> u64
    ensures { Gives (start_number (named_by block settings.now) region.old) (start_left (named_by block settings.now) region.old) result region.new }
{
    let Some(b) = block_of(block, settings) else {
        return NO_BLOCK;
    };
    number_of(start(b, region))
}

// 1 if the region decodes, else 0.
#[tactic(auto, unfolding(crate::specs::Calls::by_name))]
pub fn oven_sound(block: u64, settings: &[u64], region: &[u64]) -> u64
    ensures { result ≡ sound_said (named_by block settings.now) region.now }
{
    let Some(b) = block_of(block, settings) else {
        return 0;
    };
    word_of_flag(sound(b, region))
}

// The region taken apart.
#[tactic(auto, unfolding(crate::specs::Calls::by_name))]
pub fn oven_decode(block: u64, settings: &[u64], region: &[u64]) -> StateWords
    ensures { result ≡ decode_said (named_by block settings.now) region.now }
{
    let Some(b) = block_of(block, settings) else {
        return no_state(NO_BLOCK);
    };
    decoded_words(decode(b, region))
}

// The outputs as of this tick; nothing is stored.
#[tactic(auto, unfolding(crate::specs::Calls::by_name))]
pub fn oven_emit(
    block: u64,
    settings: &[u64],
    time: u64,
    first: u64,
    second: u64,
    third: u64,
    region: &[u64],
) -> AnswerWords
    ensures { result ≡ emit_said (named_by block settings.now) (real_of time) (three_inputs first second third) region.now }
{
    let Some(b) = block_of(block, settings) else {
        return no_answer();
    };
    emit(b, tick_of(time, first, second, third), region).into()
}

// Stores this tick.
#[tactic(auto, unfolding(crate::specs::Calls::by_name))]
pub fn oven_update(
    block: u64,
    settings: &[u64],
    time: u64,
    first: u64,
    second: u64,
    third: u64,
    region: &mut [u64],
) -> AnswerWords
    ensures { Gives (update_said (named_by block settings.now) (real_of time) (three_inputs first second third) region.old) (update_left (named_by block settings.now) (real_of time) (three_inputs first second third) region.old) result region.new }
{
    let Some(b) = block_of(block, settings) else {
        return no_answer();
    };
    update(b, tick_of(time, first, second, third), region).into()
}

// A whole tick, an emit and then an update.
#[tactic(auto, unfolding(crate::specs::Calls::by_name))]
pub fn oven_tick(
    block: u64,
    settings: &[u64],
    time: u64,
    first: u64,
    second: u64,
    third: u64,
    region: &mut [u64],
) -> AnswerWords
    ensures { Gives (tick_said (named_by block settings.now) (real_of time) (three_inputs first second third) region.old) (update_left (named_by block settings.now) (real_of time) (three_inputs first second third) region.old) result region.new }
{
    let Some(b) = block_of(block, settings) else {
        return no_answer();
    };
    tick(b, tick_of(time, first, second, third), region).into()
}

// Many whole ticks, the words of each (time and three inputs) one after the other, and so are the words of its answer (those of
// `AnswerWords`). The refusal number of the run: 13, then 14, then 2 and 3 as of a start; 5, 6 and 7 are each tick's own.
#[tactic(auto, unfolding(crate::specs::Calls::by_name))]
pub fn oven_run(
    block: u64,
    settings: &[u64],
    ticks: &[u64],
    region: &mut [u64],
    answers: &mut [u64],
) -> u64
    ensures { RunsBy (named_by block settings.now) ticks.now region.old answers.old result region.new answers.new }
{
    let Some(b) = block_of(block, settings) else {
        return NO_BLOCK;
    };
    run(b, ticks, region, answers)
}
