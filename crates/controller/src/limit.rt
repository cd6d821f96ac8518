// The output: the sum of the terms, held between the limits.
ghost use Rattle.std.specs.Prelude.{◌≡◌};
ghost use Rattle.controller.specs.Limit.{clamp, limit};

use crate::config::ControllerConfig;

// What a limiter makes of a sum that is no number.
#[derive(Clone, Copy)]
pub enum Rule {
    // It passes.
    PassesNan,
}

impl ControllerConfig {
    // The sum, held between the limits by this rule.
    #[tactic(auto, unfolding(crate::specs::Limit::clamp))]
    fn clamp(self, rule: Rule, y_u: f64) -> f64
        ensures { result ≡ clamp self rule y_u }
    {
        match rule {
            Rule::PassesNan => {
                if y_u > self.y_max {
                    return self.y_max;
                }
                if y_u < self.y_min {
                    return self.y_min;
                }
                y_u
            }
        }
    }

    // The output for a sum.
    #[tactic(auto, unfolding(crate::specs::Limit::limit))]
    pub(crate) fn limit(self, y_u: f64) -> f64
        ensures { result ≡ limit self y_u }
    {
        self.clamp(Rule::PassesNan, y_u)
    }
}
