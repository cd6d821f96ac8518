// How the calls of a block are stored.
ghost use Rattle.std.specs.Prelude.{◌≤◌, ◌≡◌};
ghost use Rattle.blocks.specs.Named.{controller_settings};

use blocks::CONTROLLER_SETTINGS;

// The eight blocks.
#[derive(Clone, Copy, Debug, PartialEq, Eq)]
pub enum Kind {
    Pid,
    PidWithReset,
    MovingAverage,
    TimerAccumulating,
    TrueDelay,
    TrueFalseHold,
    TrueHoldWithReset,
    LogicalVariablePulse,
}

// All of them, in the order of their numbers.
pub const KINDS: [Kind; 8] = [
    Kind::Pid,
    Kind::PidWithReset,
    Kind::MovingAverage,
    Kind::TimerAccumulating,
    Kind::TrueDelay,
    Kind::TrueFalseHold,
    Kind::TrueHoldWithReset,
    Kind::LogicalVariablePulse,
];

// The block's number, how many settings and inputs it has, and whether its region is given by pairs. No block has more settings than a
// controller, or more inputs than three.
#[derive(Clone, Copy)]
pub struct Form {
    pub number: u64,
    pub settings: usize,
    pub inputs: usize,
    pub pairs: bool,
    ghost settings_fit: { settings ≤ controller_settings },
    ghost inputs_fit: { inputs ≤ 3 },
}

impl Kind {
    ghost use Rattle.replay.specs.Form.{Sized, file_of};

    // Only the moving average has a region of so many words.
    pub fn form(self) -> Form
        ensures { Sized result }
    {
        let (number, settings, inputs) = match self {
            Kind::Pid => (0, CONTROLLER_SETTINGS, 2),
            Kind::PidWithReset => (1, CONTROLLER_SETTINGS, 3),
            Kind::MovingAverage => (2, 1, 1),
            Kind::TimerAccumulating => (3, 1, 2),
            Kind::TrueDelay => (4, 2, 1),
            Kind::TrueFalseHold => (5, 2, 1),
            Kind::TrueHoldWithReset => (6, 1, 2),
            Kind::LogicalVariablePulse => (7, 3, 1),
        };
        Form {
            number,
            settings,
            inputs,
            pairs: self == Kind::MovingAverage,
        }
    }

    // The file that has its calls.
    pub fn file(self) -> &'static str
        ensures { result.now ≡ file_of self }
    {
        match self {
            Kind::Pid => "Pid.txt",
            Kind::PidWithReset => "PidWithReset.txt",
            Kind::MovingAverage => "MovingAverage.txt",
            Kind::TimerAccumulating => "TimerAccumulating.txt",
            Kind::TrueDelay => "TrueDelay.txt",
            Kind::TrueFalseHold => "TrueFalseHold.txt",
            Kind::TrueHoldWithReset => "TrueHoldWithReset.txt",
            Kind::LogicalVariablePulse => "LogicalVariablePulse.txt",
        }
    }
}
