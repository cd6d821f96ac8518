// The words of a run: those of a tick in, those of its answer out.
ghost use Rattle.std.specs.Prelude.{◌+◌, ◌*◌, ◌≤◌, ◌<◌, ◌≡◌, length};
ghost use Rattle.std.proofs.lemmas.List.Edits.{sets};
ghost use Rattle.dynamics.specs.Answer.{answer_of};
ghost use Rattle.runs.specs.Run.{words_per_answer, ticks_in, asked_at, answer_in_words};

use dynamics::{Inputs, Refusal, Reply, handed_out, number_of};
use reals::{real_of, word_of, word_of_flag};

// How many words a tick has, and how many its answer.
pub const WORDS_PER_TICK: usize = 4;

pub const WORDS_PER_ANSWER: usize = 4;

// What a tick asks: its time and its inputs.
#[derive(Clone, Copy)]
pub struct Asked {
    pub time: f64,
    pub inputs: Inputs,
}

// The tick of this number, from 0.
pub(crate) fn asked_at(ticks: &[u64], n: usize) -> Asked
    requires { n < ticks_in ticks.now }
    ensures { result ≡ asked_at ticks.now n }
{
    let at = WORDS_PER_TICK * n;
    Asked {
        time: real_of(ticks[at]),
        inputs: Inputs {
            first: ticks[at + 1],
            second: ticks[at + 2],
            third: ticks[at + 3],
        },
    }
}

// What a call says, in words: with a refusal its number and zeros.
fn answer_words(met: Result<Reply, Refusal>) -> [u64; WORDS_PER_ANSWER]
    ensures { result ≡ answer_in_words (answer_of met) }
{
    let reply = handed_out(met);
    [
        number_of(met),
        word_of(reply.real),
        word_of_flag(reply.boolean),
        word_of_flag(reply.warning),
    ]
}

// Writes the answer of this number, from 0.
pub(crate) fn put_answer(answers: &mut [u64], n: usize, met: Result<Reply, Refusal>)
    requires { words_per_answer * (n + 1) ≤ length answers.old }
    ensures { answers.new ≡ sets answers.old (words_per_answer * n) (answer_in_words (answer_of met)) }
{
    let at = WORDS_PER_ANSWER * n;
    let [refusal, real, boolean, warning] = answer_words(met);
    answers[at] = refusal;
    answers[at + 1] = real;
    answers[at + 2] = boolean;
    answers[at + 3] = warning;
}
