// A stored call made again, and compared with what is stored.
ghost use Rattle.std.specs.Prelude.{◌≡◌, true, length};
ghost use Rattle.replay.specs.Compare.{before, LaidOut, Shown};
ghost use Rattle.replay.specs.Compare.{emit_agrees, update_agrees, tick_agrees};

use crate::answer::{STORED_LEN, Stored, is_emitted, is_ticked, is_updated, stored_at};
use crate::region::Words;
use blocks::{Block, Tick};
use std::error::Error;
use std::fmt;

// What of a line is not as stored: the answer of a call, or that the line is no stored call.
#[derive(Clone, Copy, Debug, PartialEq, Eq)]
pub enum Differs {
    Emit,
    Update,
    Tick,
    Malformed,
}

impl fmt::Display for Differs {
    fn fmt<W: fmt::Write>(&self, f: &mut fmt::Formatter<W>) -> fmt::Result {
        match self {
            Differs::Emit => write!(f, ": the emit differs"),
            Differs::Update => write!(f, ": the update differs"),
            Differs::Tick => write!(f, ": the tick differs"),
            Differs::Malformed => write!(f, " is not a stored call"),
        }
    }
}

impl Error for Differs {}

// Puts the words from before the call into one region and those from after it into the other, of the same length. Where the
// stored answers start, if these three are all that there is.
fn lay_out(line: Words<'_>, at: usize, region: &mut [u64], expected: &mut [u64]) -> Option<usize>
    requires { length region.old ≡ length expected.old }
    ensures { LaidOut line.entry.pairs line.entry.words.now at (length region.old) result region.new expected.new }
{
    let answers = line.put_afresh(at, region)?;
    let len = line.words.len();
    if len < STORED_LEN || len - STORED_LEN < answers {
        return None;
    }
    expected.copy_from_slice(region);
    let end = line.put(answers + STORED_LEN, expected)?;
    (end == len).then_some(answers)
}

// A call of a block.
#[derive(Clone, Copy)]
pub struct Call {
    pub block: Block,
    pub tick: Tick,
}

impl Call {
    // Whether an emit answers what is stored.
    #[tactic(auto, unfolding(crate::specs::Compare::emit_agrees))]
    fn emits(self, region: &[u64], stored: Stored) -> bool
        ensures { result ≡ emit_agrees self.block self.tick region.now stored }
    {
        is_emitted(blocks::emit(self.block, self.tick, region), stored)
    }

    // Whether an update answers and leaves what is stored. The words that are stored for after a refusal are those from before it.
    #[tactic(auto, unfolding(crate::specs::Compare::update_agrees), using(text::proofs::Comparing::same_pointwise))]
    fn updates(self, region: &mut [u64], stored: Stored, expected: &[u64]) -> bool
        ensures { result ≡ update_agrees self.block self.tick region.old stored expected.now }
    {
        let met = blocks::update(self.block, self.tick, region);
        is_updated(met, stored) & (*region == *expected)
    }

    // Whether a whole tick does.
    #[tactic(auto, unfolding(crate::specs::Compare::tick_agrees), using(text::proofs::Comparing::same_pointwise))]
    fn ticks(self, region: &mut [u64], stored: Stored, expected: &[u64]) -> bool
        ensures { result ≡ tick_agrees self.block self.tick region.old stored expected.now }
    {
        let met = blocks::tick(self.block, self.tick, region);
        is_ticked(met, stored) & (*region == *expected)
    }

    // Whether a whole tick does on the words from before the call, put in again.
    fn ticks_afresh(
        self,
        line: Words<'_>,
        at: usize,
        region: &mut [u64],
        stored: Stored,
        expected: &[u64],
    ) -> bool
        ensures { result ≡ true → tick_agrees self.block self.tick (before line.entry.pairs line.entry.words.now at (length region.old)) stored expected.now ≡ true }
    {
        line.put_afresh(at, region).is_some() && self.ticks(region, stored, expected)
    }

    // Makes the calls on a region whose words start at `at`: an emit, an update, and on the words as they were a whole tick. All is as
    // stored only if the block agrees.
    pub(crate) fn compare(
        self,
        line: Words<'_>,
        at: usize,
        region: &mut [u64],
        expected: &mut [u64],
    ) -> Result<(), Differs>
        requires { length region.old ≡ length expected.old }
        ensures { Shown self.block self.tick line.entry.pairs line.entry.words.now at (length region.old) result }
    {
        let answers = lay_out(line, at, region, expected).ok_or(Differs::Malformed)?;
        let stored = stored_at(line.words, answers);
        if !self.emits(region, stored) {
            return Err(Differs::Emit);
        }
        if !self.updates(region, stored, expected) {
            return Err(Differs::Update);
        }
        if !self.ticks_afresh(line, at, region, stored, expected) {
            return Err(Differs::Tick);
        }
        Ok(())
    }
}
