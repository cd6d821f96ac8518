// A block whose words are a state record, and whose update is one step of it: what every block is but the moving average.
ghost use Rattle.std.specs.Prelude.{◌≡◌, length};
ghost use Rattle.dynamics.specs.Answer.{emitted, said};
ghost use Rattle.dynamics.specs.Previous.{sound_previous};
ghost use Rattle.dynamics.specs.Region.{stored};
ghost use Rattle.dynamics.specs.Stepped.{Stepped, stepped_machine, stepped_told};

use crate::call::{Inputs, Reply, warning_answer};
use crate::control::ControlBlock;
use crate::previous::{Previous, previous_sound};

// One tick of a state: what an emit answers, and the state after it.
#[derive(Clone, Copy)]
pub struct Step<S> {
    pub answer: Reply,
    pub after: S,
}

// Such a block with its settings. Its calls are those of `ControlBlock`.
pub trait SteppedBlock: Copy {
    type State: Copy;

    // The block as the definitions have it, and the record of zeros that a refused decode stands for.
    ghost block: { Self → Stepped Self.State };

    ghost zeros: { Self.State };

    // Whether its settings are accepted.
    fn is_accepted(&self) -> bool
        ensures { result ≡ (block self.now).accepts };

    // How many words a state has.
    fn size(&self) -> usize
        ensures { result ≡ (block self.now).size };

    // The state of a fresh block.
    fn initial(&self) -> Self::State
        ensures { result ≡ (block self.now).initial };

    // What a region's words mean.
    fn read(&self, region: &[u64]) -> Self::State
        ensures { result ≡ (block self.now).state_of region.now };

    // Stores a state in a region of its length.
    fn write(&self, region: &mut [u64], s: Self::State)
        ensures { region.new ≡ stored region.old ((block self.now).words_of s) };

    // The previous time in a state.
    fn previous(&self, s: Self::State) -> Previous
        ensures { result ≡ (block self.now).previous s };

    // One accepted tick.
    fn step(&self, s: Self::State, time: f64, inputs: Inputs) -> Step<Self::State>
        ensures answer { said result.answer ≡ emitted ((block self.now).output s time inputs) }
        ensures after { result.after ≡ (block self.now).advance s time inputs };

    // A state has as many words as the region.
    ghost counted: { (b : Self) (s : Self.State) → length ((block b).words_of s) ≡ (block b).size };
}

impl<B: SteppedBlock> ControlBlock for B {
    type State = B::State;

    ghost machine = { λ b. stepped_machine (B.block b) };

    ghost state_of = { λ b. (B.block b).state_of };

    ghost zeros = { B.zeros };

    ghost decodes = { λ b s. sound_previous ((B.block b).previous s) };

    ghost previous = { λ b. (B.block b).previous };

    ghost told = { λ b. stepped_told (B.block b) };

    #[tactic(auto, unfolding(crate::specs::Stepped::stepped_machine))]
    fn is_accepted(&self) -> bool {
        SteppedBlock::is_accepted(self)
    }

    #[tactic(auto, unfolding(crate::specs::Stepped::stepped_machine))]
    fn size(&self) -> usize {
        SteppedBlock::size(self)
    }

    fn refresh(&self, region: &mut [u64]) {
        self.write(region, self.initial());
    }

    fn read(&self, region: &[u64]) -> B::State {
        SteppedBlock::read(self, region)
    }

    fn decodes(&self, s: B::State) -> bool {
        previous_sound(SteppedBlock::previous(self, s))
    }

    fn previous(&self, s: B::State) -> Previous {
        SteppedBlock::previous(self, s)
    }

    fn is_orderly(&self, _s: B::State, _region: &[u64]) -> bool {
        true
    }

    fn emitted(&self, s: B::State, time: f64, inputs: Inputs, _region: &[u64]) -> Reply {
        self.step(s, time, inputs).answer
    }

    fn updated(&self, s: B::State, time: f64, inputs: Inputs, region: &mut [u64]) -> Reply {
        let step = self.step(s, time, inputs);
        self.write(region, step.after);
        warning_answer(false)
    }

    fn ticked(&self, s: B::State, time: f64, inputs: Inputs, region: &mut [u64]) -> Reply {
        let step = self.step(s, time, inputs);
        self.write(region, step.after);
        step.answer
    }
}
