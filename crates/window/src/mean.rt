// The mean over a window: the integral between two points, and what it is divided by.
ghost use Rattle.std.specs.Prelude.{◌≡◌};
ghost use Rattle.window.specs.Mean.{on_line, divisor};

// The integral of the input up to a time.
#[derive(Clone, Copy)]
pub struct Point {
    pub time: f64,
    pub mu: f64,
}

// The integral up to the target, on the line through two points.
#[tactic(auto, using(reals::proofs::Words::zero_is), unfolding(crate::specs::Mean::on_line))]
pub fn interpolate(prev: Point, next: Point, target: f64) -> f64
    ensures { result ≡ on_line prev next target }
{
    let den = next.time - prev.time;
    if den == 0.0 {
        next.mu
    } else {
        prev.mu + (next.mu - prev.mu) * ((target - prev.time) / den)
    }
}

// What keeps the divisor off 0 on the first tick.
const OFF_ZERO: f64 = 1e-3;

// What the integral over the window is divided by: delta, and until the window is full the time since the start.
#[tactic(auto, using(crate::proofs::Literals::thousandth_is), unfolding(crate::specs::Mean::divisor))]
pub fn denominator(t_start: f64, delta: f64, t: f64) -> f64
    ensures { result ≡ divisor t_start delta t }
{
    if t >= t_start + delta {
        delta
    } else {
        t - t_start + OFF_ZERO
    }
}
