// A later line: a time, then the block's inputs.
ghost use Rattle.std.specs.Prelude.{◌≡◌};
ghost use Rattle.lines.specs.Lines.{tick_classes, tick_with, later_of};

use crate::first::LONGEST;
use crate::values::read_values;
use blocks::{Block, Tick};
use reals::real_of;

// The classes of a later line's items: the time, then the inputs.
fn tick_classes(block: Block) -> &'static [u8]
    ensures { result.now ≡ tick_classes block }
{
    match block {
        Block::Pid(_) => b"rrr",
        Block::PidWithReset(_) => b"rrrb",
        Block::MovingAverage { .. } => b"rr",
        Block::TimerAccumulating { .. } => b"rbb",
        Block::TrueDelay { .. } => b"rb",
        Block::TrueFalseHold { .. } => b"rb",
        Block::TrueHoldWithReset { .. } => b"rbb",
        Block::LogicalVariablePulse { .. } => b"rr",
    }
}

// The tick that words say.
fn tick_with(words: [u64; 16]) -> Tick
    ensures { result ≡ tick_with words }
{
    Tick {
        time: real_of(words[0]),
        words: [
            words[1], words[2], words[3], words[4], words[5], words[6], words[7], words[8],
        ],
    }
}

// The tick that a later line brings; none if the line is malformed.
#[tactic(auto, using(crate::proofs::Ticking::later_heard, crate::proofs::Kept::later_long))]
pub fn later_line(block: Block, line: &[u8]) -> Option<Tick>
    ensures { result ≡ later_of block line.now }
{
    if LONGEST < line.len() {
        return None;
    }
    let words = read_values(line, 0, tick_classes(block))?;
    Some(tick_with(words))
}
