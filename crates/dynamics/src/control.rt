// A block and its calls. What is a block's own stands in its `impl`; the tests of a call, in the table's order, stand here for all.
ghost use Rattle.std.specs.Prelude.{◌≡◌, ℕ, Bool, List, true};
ghost use Rattle.dynamics.specs.Answer.{number_of, answered, emitted, updated, said, answer_of, length_read, Brings};
ghost use Rattle.dynamics.specs.Previous.{Previous};
ghost use Rattle.dynamics.specs.Region.{Gives};
ghost use Rattle.dynamics.specs.Machine.{Machine, Told, read_as, length_answer, start_refusal, decode_refusal, decode_answer, tick_refusal, started_words, is_sound, emit_answer, update_answer, updated_words, tick_answer};

use crate::call::{Inputs, Reply};
use crate::previous::Previous;
use crate::refusal::{Refusal, test_form, test_time};

// A block with its settings.
pub trait ControlBlock: Copy {
    // What its words say.
    type State: Copy;

    // The block as the definitions have it; what words mean; the record of zeros that a refused decode stands for.
    ghost machine: { Self → Machine };

    ghost state_of: { Self → List ℕ → Self.State };

    ghost zeros: { Self.State };

    // Of a state: whether its words decode, and its previous time.
    ghost decodes: { Self → Self.State → Bool };

    ghost previous: { Self → Self.State → Previous };

    // Whether its settings are accepted.
    fn is_accepted(&self) -> bool
        ensures { result ≡ (machine self.now).accepts };

    // How many words its region has.
    fn size(&self) -> usize
        ensures { result ≡ (machine self.now).size };

    // Writes the words of a fresh block.
    fn refresh(&self, region: &mut [u64])
        requires { start_refusal (machine self.now) region.old ≡ 0 }
        ensures { region.new ≡ (machine self.now).fresh };

    // What a region's words mean.
    fn read(&self, region: &[u64]) -> Self::State
        ensures { result ≡ state_of self.now region.now };

    fn decodes(&self, s: Self::State) -> bool
        ensures { result ≡ decodes self.now s };

    fn previous(&self, s: Self::State) -> Previous
        ensures { result ≡ previous self.now s };

    // Whether a region that decodes is sound.
    fn is_orderly(&self, s: Self::State, region: &[u64]) -> bool
        requires opened { decode_refusal (machine self.now) region.now ≡ 0 }
        requires state { s ≡ state_of self.now region.now }
        ensures { result ≡ (machine self.now).sound region.now };

    // What an emit of an accepted tick answers.
    fn emitted(&self, s: Self::State, time: f64, inputs: Inputs, region: &[u64]) -> Reply
        requires opened { tick_refusal (machine self.now) time region.now ≡ 0 }
        requires state { s ≡ state_of self.now region.now }
        ensures { said result ≡ emitted ((machine self.now).output region.now time inputs) };

    // Stores an accepted tick.
    fn updated(&self, s: Self::State, time: f64, inputs: Inputs, region: &mut [u64]) -> Reply
        requires opened { tick_refusal (machine self.now) time region.old ≡ 0 }
        requires state { s ≡ state_of self.now region.old }
        ensures { Gives (updated ((machine self.now).warns region.old time inputs)) ((machine self.now).after region.old time inputs) (said result) region.new };

    // Both at once.
    fn ticked(&self, s: Self::State, time: f64, inputs: Inputs, region: &mut [u64]) -> Reply
        requires opened { tick_refusal (machine self.now) time region.old ≡ 0 }
        requires state { s ≡ state_of self.now region.old }
        ensures { Gives (answered ((machine self.now).output region.old time inputs) ((machine self.now).warns region.old time inputs)) ((machine self.now).after region.old time inputs) (said result) region.new };

    // What a state tells is what the words tell.
    ghost told: { (b : Self) → Told (machine b) (state_of b) (decodes b) (previous b) };

    // How many words its region has, if its settings are accepted.
    #[tactic(auto, unfolding(crate::specs::Machine::length_answer, crate::specs::Answer::length_of, crate::specs::Answer::form_refusal, crate::specs::Answer::refusal_of, crate::specs::Answer::accept))]
    final fn state_length(&self) -> Result<usize, Refusal>
        ensures { length_read result ≡ length_answer (machine self.now) }
    {
        if !self.is_accepted() {
            return Err(Refusal::Settings);
        }
        Ok(self.size())
    }

    // Tests 2 and 3.
    #[tactic(auto, unfolding(crate::specs::Machine::start_refusal))]
    final fn test_form(&self, region: &[u64]) -> Result<(), Refusal>
        ensures { number_of result ≡ start_refusal (machine self.now) region.now }
    {
        test_form(self.is_accepted(), region.len() == self.size())
    }

    // Writes the words of a fresh block.
    final fn start(&self, region: &mut [u64]) -> Result<(), Refusal>
        ensures { Gives (start_refusal (machine self.now) region.old) (started_words (machine self.now) region.old) (number_of result) region.new }
    {
        self.test_form(&region[..])?;
        self.refresh(region);
        Ok(())
    }

    // A region taken apart: its state, or why it has none.
    final fn decode(&self, region: &[u64]) -> Result<Self::State, Refusal>
        ensures value { Brings (decode_refusal (machine self.now) region.now) (state_of self.now region.now) result }
        ensures reading { read_as zeros result ≡ decode_answer (machine self.now) (state_of self.now) zeros region.now }
    {
        self.test_form(region)?;
        let s = self.read(region);
        if !self.decodes(s) {
            return Err(Refusal::State);
        }
        Ok(s)
    }

    // Whether a region is sound.
    final fn sound(&self, region: &[u64]) -> bool
        ensures { result ≡ is_sound (machine self.now) region.now }
    {
        let Ok(s) = self.decode(region) else {
            return false;
        };
        self.is_orderly(s, region)
    }

    // A region taken apart for a tick at this time: each test once, in the table's order.
    final fn admit(&self, time: f64, region: &[u64]) -> Result<Self::State, Refusal>
        ensures { Brings (tick_refusal (machine self.now) time region.now) (state_of self.now region.now) result }
    {
        self.test_form(region)?;
        let s = self.read(region);
        test_time(time, self.decodes(s), self.previous(s))?;
        Ok(s)
    }

    // The outputs as of this tick; nothing is stored.
    final fn emit(&self, time: f64, inputs: Inputs, region: &[u64]) -> Result<Reply, Refusal>
        ensures { answer_of result ≡ emit_answer (machine self.now) time inputs region.now }
    {
        let s = self.admit(time, region)?;
        Ok(self.emitted(s, time, inputs, region))
    }

    // Stores this tick.
    final fn update(&self, time: f64, inputs: Inputs, region: &mut [u64]) -> Result<Reply, Refusal>
        ensures { Gives (update_answer (machine self.now) time inputs region.old) (updated_words (machine self.now) time inputs region.old) (answer_of result) region.new }
    {
        let s = self.admit(time, &region[..])?;
        Ok(self.updated(s, time, inputs, region))
    }

    // A whole tick, an emit and then an update, with every test made once.
    final fn tick(&self, time: f64, inputs: Inputs, region: &mut [u64]) -> Result<Reply, Refusal>
        ensures { Gives (tick_answer (machine self.now) time inputs region.old) (updated_words (machine self.now) time inputs region.old) (answer_of result) region.new }
    {
        let s = self.admit(time, &region[..])?;
        Ok(self.ticked(s, time, inputs, region))
    }
}
