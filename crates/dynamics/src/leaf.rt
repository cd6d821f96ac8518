// The small steps that blocks share.
ghost use Rattle.std.specs.Prelude.{◌≡◌};
ghost use Rattle.dynamics.specs.Leaves.{accumulated, filtered, positive_duration, raised_to, rising};

// What a tick of a delay or a hold gives: its output, and the timer to store.
#[derive(Clone, Copy)]
pub struct Timed {
    pub y: bool,
    pub timer: f64,
}

// x with slope * dt added on.
#[tactic(auto, unfolding(crate::specs::Leaves::accumulated))]
pub fn forward_euler_accumulate(x: f64, slope: f64, dt: f64) -> f64
    ensures { result ≡ accumulated x slope dt }
{
    x + slope * dt
}

// One step of the one-pole filter toward the input.
#[tactic(auto, unfolding(crate::specs::Leaves::filtered))]
pub fn first_order_filter_implicit(x: f64, input: f64, time_const: f64, dt: f64) -> f64
    ensures { result ≡ filtered x input time_const dt }
{
    let alpha = dt / time_const;
    (x + alpha * input) / (1.0 + alpha)
}

// x if it is above zero, else 0.0.
#[tactic(auto, unfolding(crate::specs::Leaves::positive_duration), using(reals::proofs::Words::zero_is))]
pub fn positive_duration(x: f64) -> f64
    ensures { result ≡ positive_duration x }
{
    if x > 0.0 { x } else { 0.0 }
}

// x, and where x is smaller, the least that is allowed.
#[tactic(auto, unfolding(crate::specs::Leaves::raised_to))]
pub fn raised_to(least: f64, x: f64) -> f64
    ensures { result ≡ raised_to least x }
{
    if x < least { least } else { x }
}

// A true one after a false one.
pub fn is_rising(now: bool, before: bool) -> bool
    ensures { result ≡ rising now before }
{
    if before { false } else { now }
}
