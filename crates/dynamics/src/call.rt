// What a call on one block brings, and what it hands out. It is made here and nowhere else.
ghost use Rattle.std.specs.Prelude.{◌≡◌};
ghost use Rattle.dynamics.specs.Answer.{answered, emitted, updated, real_output, boolean_output, both_outputs, said, number_of, answer_with, answer_of};

use crate::refusal::Refusal;

// What a tick brings besides its time; a block reads as many words as it has inputs.
#[derive(Clone, Copy)]
pub struct Inputs {
    pub first: u64,
    pub second: u64,
    pub third: u64,
}

// What an accepted call hands out: an emit its outputs, an update its warning, a whole tick both.
#[derive(Clone, Copy)]
pub struct Reply {
    pub real: f64,
    pub boolean: bool,
    pub warning: bool,
}

// A whole tick: an emit's outputs, and an update's warning.
pub fn tick_answer(real: f64, boolean: bool, warning: bool) -> Reply
    ensures { said result ≡ answered (both_outputs real boolean) warning }
{
    Reply {
        real,
        boolean,
        warning,
    }
}

// An accepted emit of a real and a boolean output.
pub fn both_answer(real: f64, boolean: bool) -> Reply
    ensures { said result ≡ emitted (both_outputs real boolean) }
{
    tick_answer(real, boolean, false)
}

// An accepted emit of a real output.
pub fn real_answer(real: f64) -> Reply
    ensures { said result ≡ emitted (real_output real) }
{
    both_answer(real, false)
}

// An accepted emit of a boolean output.
#[tactic(auto, using(reals::proofs::Words::zero_is))]
pub fn boolean_answer(boolean: bool) -> Reply
    ensures { said result ≡ emitted (boolean_output boolean) }
{
    both_answer(0.0, boolean)
}

// An accepted update: it hands out its warning alone.
#[tactic(auto, using(reals::proofs::Words::zero_is))]
pub fn warning_answer(warning: bool) -> Reply
    ensures { said result ≡ updated warning }
{
    tick_answer(0.0, false, warning)
}

// What a call hands out: of a refusal 0.0, false and no warning.
#[tactic(auto, using(reals::proofs::Words::zero_is))]
pub fn handed_out(met: Result<Reply, Refusal>) -> Reply
    ensures { answer_with (number_of met) result ≡ answer_of met }
{
    met.unwrap_or(warning_answer(false))
}
