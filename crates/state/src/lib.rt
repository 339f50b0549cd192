// States (document 01, "The mount"): three coordinates with the range that they are taken from, distance, interpolation and steering.
// The constructor refuses bad numbers; `is_good` says the same of a value that somebody else made.
#![tactic(auto)]

ghost use Rattle.std.specs.Prelude.{◌≡◌, false};
ghost use Rattle.std.specs.Float.{binary64};
ghost use Rattle.std.specs.Float.Ieee.{lt, of_bits};
ghost use Rattle.state.specs.Ranges.{inside_of, within_of, coordinate_of, good_state, at_most_of, good_span};
ghost use Rattle.state.specs.Made.{state_of};
ghost use Rattle.state.specs.Distance.{apart_of, wider_of, distance_of};
ghost use Rattle.state.specs.Steering.{interpolate_of, steer_by_of, steer_of};

// Azimuth, elevation and feed rotation: one record that travels by value.
#[derive(Clone, Copy, PartialEq)]
pub struct State {
    pub az: f64,
    pub el: f64,
    pub feed: f64,
}

// From low to high, ends included.
#[tactic(auto, unfolding(crate::specs::Ranges::inside_of))]
pub fn inside(low: f64, high: f64, x: f64) -> bool
    ensures { result ≡ inside_of low high x }
{
    low <= x && x <= high
}

// The running number m, or the size of a - b if that is strictly larger. Taken by its bits a size costs no branch; the test for a
// number that is none is what `to_bits` wants, and the compiler drops it.
fn widened(m: f64, a: f64, b: f64) -> f64
    requires { lt m (of_bits binary64 0) ≡ false }
    ensures { (result ≡ wider_of m (apart_of a b)) × (lt result (of_bits binary64 0) ≡ false) }
{
    let e = a - b;
    if e == e {
        let bits = f64::to_bits(e);
        let size = f64::from_bits(bits & 0x7fff_ffff_ffff_ffff);
        if m < size {
            return size;
        }
    }
    m
}

impl State {
    // The range of a coordinate.
    pub const LOWEST: f64 = -1024.0;

    pub const HIGHEST: f64 = 1024.0;

    #[tactic(auto, unfolding(crate::specs::Made::state_of))]
    pub fn new(az: f64, el: f64, feed: f64) -> Option<State>
        ensures { result ≡ state_of az el feed }
    {
        let s = State { az, el, feed };
        s.is_good().then_some(s)
    }

    // A coordinate is finite and in its range; -0.0 is taken.
    #[tactic(auto, unfolding(crate::specs::Ranges::coordinate_of))]
    pub fn is_coordinate(x: f64) -> bool
        ensures { result ≡ coordinate_of x }
    {
        inside(State::LOWEST, State::HIGHEST, x)
    }

    #[tactic(auto, unfolding(crate::specs::Ranges::good_state))]
    pub fn is_good(self) -> bool
        ensures { result ≡ good_state self }
    {
        State::is_coordinate(self.az)
            && State::is_coordinate(self.el)
            && State::is_coordinate(self.feed)
    }

    // Each axis from low to high, ends included.
    #[tactic(auto, unfolding(crate::specs::Ranges::within_of))]
    pub fn within(self, low: State, high: State) -> bool
        ensures { result ≡ within_of low high self }
    {
        inside(low.az, high.az, self.az)
            && inside(low.el, high.el, self.el)
            && inside(low.feed, high.feed, self.feed)
    }

    // At most high on each axis.
    #[tactic(auto, unfolding(crate::specs::Ranges::at_most_of))]
    fn at_most(self, high: State) -> bool
        ensures { result ≡ at_most_of self high }
    {
        self.az <= high.az && self.el <= high.el && self.feed <= high.feed
    }

    // Two good states, low at most high: what limits and a box are.
    #[tactic(auto, unfolding(crate::specs::Ranges::good_span))]
    pub fn spans(self, high: State) -> bool
        ensures { result ≡ good_span self high }
    {
        self.is_good() && high.is_good() && self.at_most(high)
    }

    // All axes drive at once at one speed: the largest difference of an axis.
    #[tactic(auto, unfolding(crate::specs::Distance::distance_of))]
    pub fn distance(self, other: State) -> f64
        ensures { result ≡ distance_of self other }
    {
        let a = widened(0.0, self.az, other.az);
        let b = widened(a, self.el, other.el);
        widened(b, self.feed, other.feed)
    }

    // The state at the part t of the way from self to to.
    #[tactic(auto, unfolding(crate::specs::Steering::interpolate_of))]
    pub fn interpolate(self, to: State, t: f64) -> State
        ensures { result ≡ interpolate_of self to t }
    {
        State {
            az: self.az + (to.az - self.az) * t,
            el: self.el + (to.el - self.el) * t,
            feed: self.feed + (to.feed - self.feed) * t,
        }
    }

    // The new state of a tree step from self, whose distance to the sample is least: at most max_distance on the way.
    #[tactic(auto, unfolding(crate::specs::Steering::steer_by_of))]
    pub fn steer_by(self, sample: State, max_distance: f64, least: f64) -> State
        ensures { result ≡ steer_by_of max_distance least self sample }
    {
        if max_distance < least {
            self.interpolate(sample, max_distance / least)
        } else {
            sample
        }
    }

    #[tactic(auto, unfolding(crate::specs::Steering::steer_of))]
    pub fn steer(self, sample: State, max_distance: f64) -> State
        ensures { result ≡ steer_of max_distance self sample }
    {
        self.steer_by(sample, max_distance, self.distance(sample))
    }
}
