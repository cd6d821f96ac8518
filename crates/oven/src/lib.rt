// The library for a controller that needs no more: start, tick and run, as `exports` has them, and nothing beside them.
#![tactic(auto)]

ghost use Rattle.reals.specs.Words.{real_of};
ghost use Rattle.dynamics.specs.Region.{Gives};
ghost use Rattle.blocks.specs.Named.{named_by};
ghost use Rattle.exports.specs.Boundary.{three_inputs};
ghost use Rattle.exports.specs.Calls.{start_number, start_left, update_left, tick_said, RunsBy};

use exports::boundary::{AnswerWords, refused};
use runs::WORDS_PER_ANSWER;

// Writes the words of a fresh block. The refusal number; 0 is accepted.
#[unsafe(no_mangle)]
pub extern "C" fn oven_start(block: u64, settings: &[u64], region: &mut [u64]) -> u64
    ensures { Gives (start_number (named_by block settings.now) region.old) (start_left (named_by block settings.now) region.old) result region.new }
{
    exports::calls::oven_start(block, settings, region)
}

// A whole tick, an emit and then an update: a run of one, so that the code of each block's tick is there once.
#[unsafe(no_mangle)]
pub extern "C" fn oven_tick(
    block: u64,
    settings: &[u64],
    time: u64,
    first: u64,
    second: u64,
    third: u64,
    region: &mut [u64],
) -> AnswerWords
    ensures { Gives (tick_said (named_by block settings.now) (real_of time) (three_inputs first second third) region.old) (update_left (named_by block settings.now) (real_of time) (three_inputs first second third) region.old) result region.new }
{
    let ticks = [time, first, second, third];
    let mut answers = [0u64; WORDS_PER_ANSWER];
    let refusal = exports::calls::oven_run(block, settings, &ticks, region, &mut answers);
    if refusal != 0 {
        return refused(refusal);
    }
    AnswerWords {
        refusal: answers[0],
        real: answers[1],
        boolean: answers[2],
        warning: answers[3],
    }
}

// Many whole ticks, the words of each (time and three inputs) one after the other, and so are the words of its answer.
#[unsafe(no_mangle)]
pub extern "C" fn oven_run(
    block: u64,
    settings: &[u64],
    ticks: &[u64],
    region: &mut [u64],
    answers: &mut [u64],
) -> u64
    ensures { RunsBy (named_by block settings.now) ticks.now region.old answers.old result region.new answers.new }
{
    exports::calls::oven_run(block, settings, ticks, region, answers)
}
