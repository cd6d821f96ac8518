// A block from words: its number, and its settings in source order.
ghost use Rattle.std.specs.Prelude.{◌≡◌, ltb};
ghost use Rattle.std.specs.Bool.{then_some};
ghost use Rattle.blocks.specs.Named.{controller_type_of, names_controller, config_of, named_by};

use crate::block::Block;
use controller::{ControllerConfig, ControllerType};
use reals::{flag_of, real_of};

// How many settings a controller has.
pub const CONTROLLER_SETTINGS: usize = 13;

// The type that a word names, if it names one. C hands types and blocks as numbers. No `TryFrom`: its error would say nothing.
fn controller_type_of(w: u64) -> Option<ControllerType>
    ensures { result ≡ then_some (ltb w 4) (controller_type_of w) }
{
    match w {
        0 => Some(ControllerType::P),
        1 => Some(ControllerType::Pi),
        2 => Some(ControllerType::Pd),
        3 => Some(ControllerType::Pid),
        _ => None,
    }
}

// The settings of a controller, if the words are such: as many as there are, of a type that there is.
#[tactic(auto, unfolding(crate::specs::Named::names_controller, crate::specs::Named::config_of))]
fn config_of(settings: &[u64]) -> Option<ControllerConfig>
    ensures { result ≡ then_some (names_controller settings.now) (config_of settings.now) }
{
    let [
        kind,
        k,
        ti,
        td,
        r,
        y_max,
        y_min,
        ni,
        nd,
        xi_start,
        yd_start,
        y_reset,
        reverse,
    ] = settings
    else {
        return None;
    };
    Some(ControllerConfig {
        controller_type: controller_type_of(*kind)?,
        k: real_of(*k),
        ti: real_of(*ti),
        td: real_of(*td),
        r: real_of(*r),
        y_max: real_of(*y_max),
        y_min: real_of(*y_min),
        ni: real_of(*ni),
        nd: real_of(*nd),
        xi_start: real_of(*xi_start),
        yd_start: real_of(*yd_start),
        y_reset: real_of(*y_reset),
        reverse_acting: flag_of(*reverse),
    })
}

// The block of this number with these settings, if they are its own.
#[tactic(auto, unfolding(crate::specs::Named::named_by))]
pub fn block_of(number: u64, settings: &[u64]) -> Option<Block>
    ensures { result ≡ named_by number settings.now }
{
    match (number, settings) {
        (0, _) => Some(Block::Pid(config_of(settings)?)),
        (1, _) => Some(Block::PidWithReset(config_of(settings)?)),
        (2, [delta]) => Some(Block::MovingAverage {
            delta: real_of(*delta),
        }),
        (3, [t]) => Some(Block::TimerAccumulating { t: real_of(*t) }),
        (4, [time, on_init]) => Some(Block::TrueDelay {
            delay_time: real_of(*time),
            delay_on_init: flag_of(*on_init),
        }),
        (5, [long_true, long_false]) => Some(Block::TrueFalseHold {
            true_hold_duration: real_of(*long_true),
            false_hold_duration: real_of(*long_false),
        }),
        (6, [duration]) => Some(Block::TrueHoldWithReset {
            duration: real_of(*duration),
        }),
        (7, [period, delta, least]) => Some(Block::LogicalVariablePulse {
            period: real_of(*period),
            delta_u: real_of(*delta),
            min_true_false_hold: real_of(*least),
        }),
        _ => None,
    }
}
