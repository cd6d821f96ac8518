// What the two holds share: their state, its three words in a region, and how an output lasts.
#![tactic(auto)]

mod step;

ghost use Rattle.std.specs.Prelude.{◌≡◌};
ghost use Rattle.dynamics.specs.Region.{stored};
ghost use Rattle.hold.specs.Hold.{initial, state_of, words_of};

use dynamics::{Previous, flag_at, previous_at, real_at, store, word_of_previous};
use reals::{word_of, word_of_flag};
pub use step::output_and_timer;

// Which word is which.
const HELD_WORD: usize = 0;

const TIMER_WORD: usize = 1;

const PREV_T_WORD: usize = 2;

// How many words a hold's region has.
pub const STATE_LEN: usize = 3;

// The output and the stored timer, and the time of the previous tick.
#[derive(Clone, Copy)]
pub struct State {
    pub held: bool,
    pub timer: f64,
    pub previous: Previous,
}

impl State {
    // The state of a fresh hold.
    pub fn fresh() -> State
        ensures { result ≡ initial }
    {
        State {
            held: false,
            timer: 0.0,
            previous: None,
        }
    }

    // What a region's words mean.
    #[tactic(auto, unfolding(crate::specs::Hold::state_of))]
    pub fn read(region: &[u64]) -> State
        ensures { result ≡ state_of region.now }
    {
        State {
            held: flag_at(region, HELD_WORD),
            timer: real_at(region, TIMER_WORD),
            previous: previous_at(region, PREV_T_WORD),
        }
    }

    // Stores it in a region of its length.
    #[tactic(auto, unfolding(crate::specs::Hold::words_of))]
    pub fn write(self, region: &mut [u64])
        ensures { region.new ≡ stored region.old (words_of self) }
    {
        let words = [
            word_of_flag(self.held),
            word_of(self.timer),
            word_of_previous(self.previous),
        ];
        store(region, &words);
    }
}
