// The state of a region that was taken apart, whichever block it is of.
ghost use Rattle.std.specs.Prelude.{◌≡◌};
ghost use Rattle.blocks.specs.declared.decoded.State.TheVariants as variant;

// The state record of a block: both controllers have one, and so have both holds.
#[derive(Clone, Copy)]
pub enum State {
    Controller(controller::State),
    MovingAverage(moving_average::State),
    TimerAccumulating(timer_accumulating::State),
    TrueDelay(true_delay::State),
    Hold(hold::State),
    LogicalVariablePulse(logical_variable_pulse::State),
}

impl From<controller::State> for State {
    ghost from_gives = { λ own s. s ≡ variant.Controller own };

    fn from(own: controller::State) -> State {
        State::Controller(own)
    }
}

impl From<moving_average::State> for State {
    ghost from_gives = { λ own s. s ≡ variant.MovingAverage own };

    fn from(own: moving_average::State) -> State {
        State::MovingAverage(own)
    }
}

impl From<timer_accumulating::State> for State {
    ghost from_gives = { λ own s. s ≡ variant.TimerAccumulating own };

    fn from(own: timer_accumulating::State) -> State {
        State::TimerAccumulating(own)
    }
}

impl From<true_delay::State> for State {
    ghost from_gives = { λ own s. s ≡ variant.TrueDelay own };

    fn from(own: true_delay::State) -> State {
        State::TrueDelay(own)
    }
}

impl From<hold::State> for State {
    ghost from_gives = { λ own s. s ≡ variant.Hold own };

    fn from(own: hold::State) -> State {
        State::Hold(own)
    }
}

impl From<logical_variable_pulse::State> for State {
    ghost from_gives = { λ own s. s ≡ variant.LogicalVariablePulse own };

    fn from(own: logical_variable_pulse::State) -> State {
        State::LogicalVariablePulse(own)
    }
}
