// Keep-outs (document 01, "The mount"): places that the dish stays out of.
#![tactic(auto)]

ghost use Rattle.std.specs.Prelude.{◌≡◌};
ghost use Rattle.keep_out.specs.Covers.{covers_of};
ghost use Rattle.keep_out.specs.Good.{good_disc, good_keep_out, made_of, box_of, disc_of, floor_of};

use state::State;

// Three kinds, each carrying its own numbers.
#[derive(Clone, Copy, PartialEq)]
pub enum KeepOut {
    // Faces belong to it.
    Box { low: State, high: State },
    // In azimuth and elevation; the feed is ignored.
    Disc { az: f64, el: f64, radius: f64 },
    // What lies below an elevation.
    Floor(f64),
}

impl KeepOut {
    // The range of a disc's radius; every other number is a coordinate.
    pub const LEAST_RADIUS: f64 = 0.0;

    pub const MOST_RADIUS: f64 = 1024.0;

    #[tactic(auto, unfolding(crate::specs::Good::made_of))]
    fn made(self) -> Option<KeepOut>
        ensures { result ≡ made_of self }
    {
        self.is_good().then_some(self)
    }

    pub fn new_box(low: State, high: State) -> Option<KeepOut>
        ensures { result ≡ box_of low high }
    {
        KeepOut::Box { low, high }.made()
    }

    pub fn new_disc(az: f64, el: f64, radius: f64) -> Option<KeepOut>
        ensures { result ≡ disc_of az el radius }
    {
        KeepOut::Disc { az, el, radius }.made()
    }

    pub fn new_floor(el: f64) -> Option<KeepOut>
        ensures { result ≡ floor_of el }
    {
        KeepOut::Floor(el).made()
    }

    #[tactic(auto, unfolding(crate::specs::Good::good_disc))]
    fn is_disc(az: f64, el: f64, radius: f64) -> bool
        ensures { result ≡ good_disc az el radius }
    {
        State::is_coordinate(az)
            && State::is_coordinate(el)
            && state::inside(KeepOut::LEAST_RADIUS, KeepOut::MOST_RADIUS, radius)
    }

    #[tactic(auto, unfolding(crate::specs::Good::good_keep_out))]
    pub fn is_good(self) -> bool
        ensures { result ≡ good_keep_out self }
    {
        match self {
            KeepOut::Box { low, high } => low.spans(high),
            KeepOut::Disc { az, el, radius } => KeepOut::is_disc(az, el, radius),
            KeepOut::Floor(el) => State::is_coordinate(el),
        }
    }

    // Lent, so that the kind is asked before any number is loaded: by value, the numbers that
    // kinds share came first (docs/LOOK-BACK.md).
    #[tactic(auto, unfolding(crate::specs::Covers::covers_of))]
    pub fn covers(&self, s: State) -> bool
        ensures { result ≡ covers_of self.now s }
    {
        match *self {
            KeepOut::Box { low, high } => s.within(low, high),
            KeepOut::Disc { az, el, radius } => {
                let dx = s.az - az;
                let dy = s.el - el;
                dx * dx + dy * dy <= radius * radius
            }
            KeepOut::Floor(el) => s.el < el,
        }
    }
}
