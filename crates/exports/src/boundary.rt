// What crosses to C and Rust: words alone, since compiled code may give a NaN any bits.
ghost use Rattle.std.specs.Prelude.{◌≡◌};
ghost use Rattle.dynamics.specs.Answer.{silent, answer_with, answer_of, length_read};
ghost use Rattle.exports.specs.Boundary.{answer_crossed, length_words, no_block, Brings};

use blocks::Tick;
use dynamics::{Refusal, Reply, handed_out, number_of, warning_answer};
use reals::{real_of, word_of, word_of_flag};

// The refusal number of words that name no block.
pub const NO_BLOCK: u64 = 13;

// The refusal number, the real's bits, and the two booleans as 0 or 1.
#[repr(C)]
#[derive(Clone, Copy)]
pub struct AnswerWords {
    pub refusal: u64,
    pub real: u64,
    pub boolean: u64,
    pub warning: u64,
}

// The refusal number and the state length.
#[repr(C)]
#[derive(Clone, Copy)]
pub struct LengthWords {
    pub refusal: u64,
    pub length: u64,
}

// What a call hands out, beside its number, in words.
#[tactic(auto, unfolding(crate::specs::Boundary::answer_crossed))]
fn crossed(refusal: u64, reply: Reply) -> AnswerWords
    ensures { result ≡ answer_crossed (answer_with refusal reply) }
{
    AnswerWords {
        refusal,
        real: word_of(reply.real),
        boolean: word_of_flag(reply.boolean),
        warning: word_of_flag(reply.warning),
    }
}

// A refusal in words: its number and zeros.
pub fn refused(refusal: u64) -> AnswerWords
    ensures { result ≡ answer_crossed (silent refusal) }
{
    crossed(refusal, warning_answer(false))
}

impl From<Result<Reply, Refusal>> for AnswerWords {
    ghost from_gives = { λ met w. w ≡ answer_crossed (answer_of met) };

    fn from(met: Result<Reply, Refusal>) -> AnswerWords {
        crossed(number_of(met), handed_out(met))
    }
}

impl From<Result<usize, Refusal>> for LengthWords {
    ghost from_gives = { λ met w. w ≡ length_words (length_read met) };

    fn from(met: Result<usize, Refusal>) -> LengthWords {
        match met {
            Ok(length) => LengthWords {
                refusal: 0,
                length: length as u64,
            },
            Err(refusal) => LengthWords {
                refusal: refusal.into(),
                length: 0,
            },
        }
    }
}

// The answer where the words name no block.
pub fn no_answer() -> AnswerWords
    ensures { result ≡ answer_crossed (silent no_block) }
{
    refused(NO_BLOCK)
}

// What a tick brings to one block.
#[tactic(auto, unfolding(blocks::specs::Block::inputs_of, crate::specs::Boundary::three_inputs))]
pub(crate) fn tick_of(time: u64, first: u64, second: u64, third: u64) -> Tick
    ensures { Brings time first second third result }
{
    Tick {
        time: real_of(time),
        words: [first, second, third, 0, 0, 0, 0, 0],
    }
}
