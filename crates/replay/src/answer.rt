// The answers that a line stores, and whether an answer is one of them.
ghost use Rattle.std.specs.Prelude.{◌≡◌, ◌+◌, ◌≤◌, length};
ghost use Rattle.dynamics.specs.Answer.{answer_of};
ghost use Rattle.replay.specs.Answer.{answers_with, stored_at, meets_emit, meets_update, meets_tick};

use dynamics::{Refusal, Reply, handed_out, number_of, word_at};
use reals::{word_of, word_of_flag};

// How many words they are.
pub const STORED_LEN: usize = 5;

// What the emit and the update answer.
#[derive(Clone, Copy, Debug, PartialEq, Eq)]
pub struct Stored {
    pub refusal: u64,
    pub real: u64,
    pub boolean: u64,
    pub update_refusal: u64,
    pub warning: u64,
}

// The answers that start at `at`.
#[tactic(auto, unfolding(crate::specs::Answer::stored_at))]
pub(crate) fn stored_at(words: &[u64], at: usize) -> Stored
    requires { at + 5 ≤ length words.now }
    ensures { result ≡ stored_at words.now at }
{
    Stored {
        refusal: word_at(words, at),
        real: word_at(words, at + 1),
        boolean: word_at(words, at + 2),
        update_refusal: word_at(words, at + 3),
        warning: word_at(words, at + 4),
    }
}

// Whether an answer has these words; a refusal hands out zeros.
#[tactic(auto, unfolding(crate::specs::Answer::answers_with))]
fn answers_with(
    met: Result<Reply, Refusal>,
    refusal: u64,
    real: u64,
    boolean: u64,
    warning: u64,
) -> bool
    ensures { result ≡ answers_with (answer_of met) refusal real boolean warning }
{
    let reply = handed_out(met);
    let numbers = (number_of(met) == refusal) & (word_of(reply.real) == real);
    let flags = (word_of_flag(reply.boolean) == boolean) & (word_of_flag(reply.warning) == warning);
    numbers & flags
}

// An emit hands out no warning.
pub fn is_emitted(met: Result<Reply, Refusal>, s: Stored) -> bool
    ensures { result ≡ meets_emit (answer_of met) s }
{
    answers_with(met, s.refusal, s.real, s.boolean, 0)
}

// An update hands out its warning alone.
pub fn is_updated(met: Result<Reply, Refusal>, s: Stored) -> bool
    ensures { result ≡ meets_update (answer_of met) s }
{
    answers_with(met, s.update_refusal, 0, 0, s.warning)
}

// A whole tick hands out both.
pub fn is_ticked(met: Result<Reply, Refusal>, s: Stored) -> bool
    ensures { result ≡ meets_tick (answer_of met) s }
{
    answers_with(met, s.refusal, s.real, s.boolean, s.warning)
}
