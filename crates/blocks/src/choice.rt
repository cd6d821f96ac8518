// The choice of a block, in one place.

// An expression over the block that was chosen, which is another type in each case.
#[macro_export]
macro_rules! each_block {
    ($block:expr, $own:ident => $call:expr) => {
        match $block {
            $crate::Block::Pid(settings) => {
                let $own = $crate::Controller {
                    settings,
                    with_reset: false,
                };
                $call
            }
            $crate::Block::PidWithReset(settings) => {
                let $own = $crate::Controller {
                    settings,
                    with_reset: true,
                };
                $call
            }
            $crate::Block::MovingAverage { delta } => {
                let $own = $crate::MovingAverage { delta }.windowed();
                $call
            }
            $crate::Block::TimerAccumulating { t } => {
                let $own = $crate::TimerAccumulating { t };
                $call
            }
            $crate::Block::TrueDelay {
                delay_time,
                delay_on_init,
            } => {
                let $own = $crate::TrueDelay {
                    delay_time,
                    delay_on_init,
                };
                $call
            }
            $crate::Block::TrueFalseHold {
                true_hold_duration,
                false_hold_duration,
            } => {
                let $own = $crate::TrueFalseHold {
                    true_hold_duration,
                    false_hold_duration,
                };
                $call
            }
            $crate::Block::TrueHoldWithReset { duration } => {
                let $own = $crate::TrueHoldWithReset { duration };
                $call
            }
            $crate::Block::LogicalVariablePulse {
                period,
                delta_u,
                min_true_false_hold,
            } => {
                let $own = $crate::LogicalVariablePulse {
                    period,
                    delta_u,
                    min_true_false_hold,
                };
                $call
            }
        }
    };
}
