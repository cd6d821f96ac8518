// A block with its settings, what a tick brings, and its outputs as words.
ghost use Rattle.std.specs.Prelude.{◌≡◌};
ghost use Rattle.dynamics.specs.Answer.{said, answer_of};
ghost use Rattle.blocks.specs.Block.{real, boolean, both, handed, inputs_of, answer_words};

use controller::ControllerConfig;
use dynamics::{Inputs, Refusal, Reply, handed_out};
use reals::{word_of, word_of_flag};

// One of eight, each with its own numbers.
#[derive(Clone, Copy)]
pub enum Block {
    Pid(ControllerConfig),
    PidWithReset(ControllerConfig),
    MovingAverage {
        delta: f64,
    },
    TimerAccumulating {
        t: f64,
    },
    TrueDelay {
        delay_time: f64,
        delay_on_init: bool,
    },
    TrueFalseHold {
        true_hold_duration: f64,
        false_hold_duration: f64,
    },
    TrueHoldWithReset {
        duration: f64,
    },
    LogicalVariablePulse {
        period: f64,
        delta_u: f64,
        min_true_false_hold: f64,
    },
}

// A time and eight input words: f64 bits for a real, true unless 0 for a boolean.
#[derive(Clone, Copy)]
pub struct Tick {
    pub time: f64,
    pub words: [u64; 8],
}

// What a block reads of a tick: its first three words.
#[tactic(auto, unfolding(crate::specs::Block::inputs_of))]
pub(crate) fn inputs_of(tick: Tick) -> Inputs
    ensures { result ≡ inputs_of tick }
{
    Inputs {
        first: tick.words[0],
        second: tick.words[1],
        third: tick.words[2],
    }
}

// A block's outputs: the real or boolean one, then the second or 0.
#[derive(Clone, Copy)]
pub struct OutputWords {
    pub first: u64,
    pub second: u64,
}

fn real_words(reply: Reply) -> OutputWords
    ensures { result ≡ handed real (said reply) }
{
    OutputWords {
        first: word_of(reply.real),
        second: 0,
    }
}

fn boolean_words(reply: Reply) -> OutputWords
    ensures { result ≡ handed boolean (said reply) }
{
    OutputWords {
        first: word_of_flag(reply.boolean),
        second: 0,
    }
}

fn both_words(reply: Reply) -> OutputWords
    ensures { result ≡ handed both (said reply) }
{
    OutputWords {
        first: word_of(reply.real),
        second: word_of_flag(reply.boolean),
    }
}

// What a block's emit hands out, as words; zeros for a refusal.
pub fn answer_words(block: Block, met: Result<Reply, Refusal>) -> OutputWords
    ensures { result ≡ answer_words block (answer_of met) }
{
    let reply = handed_out(met);
    match block {
        Block::Pid(_) | Block::PidWithReset(_) | Block::MovingAverage { .. } => real_words(reply),
        Block::TimerAccumulating { .. } => both_words(reply),
        Block::TrueDelay { .. }
        | Block::TrueFalseHold { .. }
        | Block::TrueHoldWithReset { .. }
        | Block::LogicalVariablePulse { .. } => boolean_words(reply),
    }
}
