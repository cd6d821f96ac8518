// The loop of whole ticks, for any block: what its settings alone decide is worked out once, ahead of the loop.
ghost use Rattle.std.specs.Prelude.{true, ◌≡◌};
ghost use Rattle.runs.specs.Run.{asked, ran_words, ran_answers, answer_each};

use crate::words::{WORDS_PER_TICK, asked_at, put_answer};
use dynamics::ControlBlock;

// Runs the ticks, and answers each. The block comes by value: lent, its numbers would be read and tested anew at each tick, since the compiler
// does not know that the ticks write none of them.
pub(crate) fn run_block<B: ControlBlock>(
    block: B,
    ticks: &[u64],
    region: &mut [u64],
    answers: &mut [u64],
)
    requires { answer_each ticks.now answers.old ≡ true }
    ensures region_after { region.new ≡ ran_words (B.machine block) region.old (asked ticks.now) }
    ensures answers_after { answers.new ≡ ran_answers (B.machine block) region.old (asked ticks.now) }
{
    for n in 0..ticks.len() / WORDS_PER_TICK {
        let k = asked_at(ticks, n);
        put_answer(answers, n, block.tick(k.time, k.inputs, region));
    }
}
