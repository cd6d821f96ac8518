// Why a call on one block is refused: the tests of document 01's table, each once and in its order.
ghost use Rattle.std.specs.Prelude.{◌≡◌};
ghost use Rattle.dynamics.specs.Answer.{number, number_of, form_refusal, later_refusal, time_refusal};

use crate::previous::{Previous, runs_back};
use reals::is_finite;

// The table's tests, each by what fails.
#[derive(Clone, Copy, Debug, PartialEq, Eq, Hash)]
pub enum Refusal {
    Shape,
    Settings,
    Length,
    Space,
    Time,
    State,
    Order,
}

impl From<Refusal> for u64 {
    ghost from_gives = { λ refusal n. n ≡ number refusal };

    // The table's number.
    fn from(refusal: Refusal) -> u64 {
        match refusal {
            Refusal::Shape => 1,
            Refusal::Settings => 2,
            Refusal::Length => 3,
            Refusal::Space => 4,
            Refusal::Time => 5,
            Refusal::State => 6,
            Refusal::Order => 7,
        }
    }
}

// The number of a call: 0 where it is accepted.
pub fn number_of<T: Copy>(met: Result<T, Refusal>) -> u64
    ensures { result ≡ number_of met }
{
    match met {
        Ok(_) => 0,
        Err(refusal) => u64::from(refusal),
    }
}

// Tests 2 and 3: the settings are accepted, the region has the state's length.
#[tactic(auto, unfolding(crate::specs::Answer::form_refusal, crate::specs::Answer::refusal_of))]
pub fn test_form(settings: bool, length: bool) -> Result<(), Refusal>
    ensures { number_of result ≡ form_refusal settings length }
{
    if !settings {
        return Err(Refusal::Settings);
    }
    if !length {
        return Err(Refusal::Length);
    }
    Ok(())
}

// Tests 6 and 7: the words decode, the time is not below a set previous one.
#[tactic(auto, unfolding(crate::specs::Answer::later_refusal, crate::specs::Answer::refusal_of))]
fn test_state(time: f64, decodes: bool, previous: Previous) -> Result<(), Refusal>
    ensures { number_of result ≡ later_refusal time decodes previous }
{
    if !decodes {
        return Err(Refusal::State);
    }
    if runs_back(time, previous) {
        return Err(Refusal::Order);
    }
    Ok(())
}

// Tests 5, 6 and 7: the time is finite, the words decode, the time is not below a set previous one.
#[tactic(auto, unfolding(crate::specs::Answer::time_refusal, crate::specs::Answer::later_refusal, crate::specs::Answer::refusal_of))]
pub fn test_time(time: f64, decodes: bool, previous: Previous) -> Result<(), Refusal>
    ensures { number_of result ≡ time_refusal time decodes previous }
{
    if !is_finite(time) {
        return Err(Refusal::Time);
    }
    test_state(time, decodes, previous)
}
