// The call that a line's words store.
ghost use Rattle.std.specs.Prelude.{◌≡◌, ◌+◌, ◌≤◌, length};
ghost use Rattle.replay.specs.Call.{input_at, tick_at};
ghost use Rattle.replay.specs.Replay.{Replayed};

use crate::compare::{Call, Differs};
use crate::form::Form;
use crate::region::{Regions, Words};
use blocks::{Tick, block_of};
use reals::real_of;

// An input of the tick. One that the block does not have is the word 1, which must not be heard.
#[tactic(auto, unfolding(crate::specs::Call::input_at))]
fn input_at(words: &[u64], at: usize, inputs: usize, k: usize) -> u64
    requires { at + inputs ≤ length words.now }
    ensures { result ≡ input_at words.now at inputs k }
{
    if k < inputs { words[at + k] } else { 1 }
}

// The tick whose time stands at `at`, with its inputs after it.
#[tactic(auto, unfolding(crate::specs::Call::tick_at))]
fn tick_at(words: &[u64], at: usize, inputs: usize) -> Tick
    requires { at + inputs + 1 ≤ length words.now }
    ensures { result ≡ tick_at words.now at inputs }
{
    let first = input_at(words, at + 1, inputs, 0);
    let second = input_at(words, at + 1, inputs, 1);
    let third = input_at(words, at + 1, inputs, 2);
    Tick {
        time: real_of(words[at]),
        words: [first, second, third, 1, 1, 1, 1, 1],
    }
}

// Replays the call that these words store.
pub(crate) fn replay(form: Form, words: &[u64], regions: &mut Regions<'_>) -> Result<(), Differs>
    ensures { Replayed form words.now result }
{
    let settings = form.settings;
    let inputs = form.inputs;
    let at = settings + inputs + 1;
    let region = &mut *regions.region;
    let expected = &mut *regions.expected;
    let n = *words.get(at).ok_or(Differs::Malformed)? as usize;
    if region.len() < n || expected.len() < n {
        return Err(Differs::Malformed);
    }
    let block = block_of(form.number, &words[..settings]).ok_or(Differs::Malformed)?;
    let tick = tick_at(words, settings, inputs);
    let line = Words {
        words,
        pairs: form.pairs,
    };
    Call { block, tick }.compare(line, at + 1, &mut region[..n], &mut expected[..n])
}
