// One tick of the hold.
ghost use Rattle.std.specs.Prelude.{◌≡◌};
ghost use Rattle.true_false_hold.specs.TrueFalseHold.{required, advance};

use crate::TrueFalseHold;
use dynamics::{Inputs, positive_duration};
use hold::{State, output_and_timer};
use reals::flag_of;

// How long the present output has to last.
fn required_time(settings: TrueFalseHold, held: bool) -> f64
    ensures { result ≡ required settings held }
{
    if held {
        return positive_duration(settings.true_hold_duration);
    }
    positive_duration(settings.false_hold_duration)
}

// The state after this tick.
pub(crate) fn advance(settings: TrueFalseHold, s: State, time: f64, inputs: Inputs) -> State
    ensures { result ≡ advance settings s time inputs }
{
    let least = required_time(settings, s.held);
    let timed = output_and_timer(least, s, time, flag_of(inputs.first));
    State {
        held: timed.y,
        timer: timed.timer,
        previous: Some(time),
    }
}
