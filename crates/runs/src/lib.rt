// Many whole ticks of one block on one lent region: the words of each tick in, the words of each answer out.
#![tactic(auto)]

mod loops;
mod words;

ghost use Rattle.std.specs.Prelude.{true, ◌≡◌};
ghost use Rattle.dynamics.specs.Answer.{number_of};
ghost use Rattle.dynamics.specs.Machine.{start_refusal};
ghost use Rattle.blocks.specs.Block.{machine_of};
ghost use Rattle.runs.specs.declared.NoRun.TheVariants.{Form};
ghost use Rattle.runs.specs.NoRun.{number, why};
ghost use Rattle.runs.specs.Run.{asked, ran_words, ran_answers, answer_each, run_refusal, Runs};

use blocks::{Block, each_block};
use dynamics::{ControlBlock, Refusal};
use loops::run_block;
pub use words::{Asked, WORDS_PER_ANSWER, WORDS_PER_TICK};

// Why a run is none: its words are not whole ticks or have not the room of an answer for each; or a start would be refused.
#[derive(Clone, Copy, Debug, PartialEq, Eq, Hash)]
enum NoRun {
    BadTicks,
    Form(Refusal),
}

impl From<Refusal> for NoRun {
    ghost from_gives = { λ refusal no. no ≡ Form refusal };

    fn from(refusal: Refusal) -> NoRun {
        NoRun::Form(refusal)
    }
}

impl From<NoRun> for u64 {
    ghost from_gives = { λ no n. n ≡ number no };

    // 14, or the table's number.
    fn from(no: NoRun) -> u64 {
        match no {
            NoRun::BadTicks => 14,
            NoRun::Form(refusal) => u64::from(refusal),
        }
    }
}

// Runs the ticks, and answers each. The block is chosen once.
#[tactic(auto, unfolding(blocks::specs::Block::machine_of))]
fn run_ticks(block: Block, ticks: &[u64], region: &mut [u64], answers: &mut [u64])
    requires { answer_each ticks.now answers.old ≡ true }
    ensures region_after { region.new ≡ ran_words (machine_of block) region.old (asked ticks.now) }
    ensures answers_after { answers.new ≡ ran_answers (machine_of block) region.old (asked ticks.now) }
{
    each_block!(block, own => run_block(own, ticks, region, answers));
}

// Tests 2 and 3, as of a start.
#[tactic(auto, unfolding(blocks::specs::Block::machine_of))]
fn test_form(block: Block, region: &[u64]) -> Result<(), Refusal>
    ensures { number_of result ≡ start_refusal (machine_of block) region.now }
{
    each_block!(block, own => own.test_form(region))
}

// The tests of a run: by the form of its words, then as of a start.
fn test_run(block: Block, ticks: &[u64], region: &[u64], answers: &[u64]) -> Result<(), NoRun>
    ensures { why result ≡ run_refusal (machine_of block) ticks.now region.now answers.now }
{
    if ticks.len() % WORDS_PER_TICK != 0 {
        return Err(NoRun::BadTicks);
    }
    if answers.len() != WORDS_PER_ANSWER * (ticks.len() / WORDS_PER_TICK) {
        return Err(NoRun::BadTicks);
    }
    test_form(block, region)?;
    Ok(())
}

// A run of ticks. The refusal number; 0 is accepted, and else nothing is written.
pub fn run(block: Block, ticks: &[u64], region: &mut [u64], answers: &mut [u64]) -> u64
    ensures { Runs (machine_of block) ticks.now region.old answers.old result region.new answers.new }
{
    if let Err(no) = test_run(block, ticks, region, answers) {
        return u64::from(no);
    }
    run_ticks(block, ticks, region, answers);
    0
}
