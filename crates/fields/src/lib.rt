// What a setup gives beside keep-outs and start (document 01, "The mount"): limits, lengths and the goal, with the ranges that they are taken from.
// Each type has a constructor that refuses bad numbers, and `is_good`, which says the same of a value that somebody else made.
#![tactic(auto)]

ghost use Rattle.std.specs.Prelude.{◌≡◌};
ghost use Rattle.fields.specs.Ranges.{good_limits, good_length, good_goal};
ghost use Rattle.fields.specs.Made.{limits_of, length_of, goal_of};
ghost use Rattle.fields.specs.Satisfied.{satisfied_of};

use state::State;

// The mount's limits, low at most high on each axis.
#[derive(Clone, Copy, PartialEq)]
pub struct Limits {
    pub low: State,
    pub high: State,
}

impl Limits {
    #[tactic(auto, unfolding(crate::specs::Made::limits_of))]
    pub fn new(low: State, high: State) -> Option<Limits>
        ensures { result ≡ limits_of low high }
    {
        let limits = Limits { low, high };
        limits.is_good().then_some(limits)
    }

    #[tactic(auto, unfolding(crate::specs::Ranges::good_limits))]
    pub fn is_good(self) -> bool
        ensures { result ≡ good_limits self }
    {
        self.low.spans(self.high)
    }
}

// A segment length, max_distance, search_radius or connection_radius.
#[derive(Clone, Copy, PartialEq)]
pub struct Length {
    pub value: f64,
}

impl Length {
    pub const LEAST: f64 = 0.001;

    pub const MOST: f64 = 4096.0;

    #[tactic(auto, unfolding(crate::specs::Made::length_of))]
    pub fn new(value: f64) -> Option<Length>
        ensures { result ≡ length_of value }
    {
        let length = Length { value };
        length.is_good().then_some(length)
    }

    #[tactic(auto, unfolding(crate::specs::Ranges::good_length))]
    pub fn is_good(self) -> bool
        ensures { result ≡ good_length self }
    {
        state::inside(Length::LEAST, Length::MOST, self.value)
    }
}

// Where a route is to end: near enough to the centre.
#[derive(Clone, Copy, PartialEq)]
pub struct Goal {
    pub centre: State,
    pub radius: f64,
}

impl Goal {
    pub const LEAST_RADIUS: f64 = 0.0;

    pub const MOST_RADIUS: f64 = 4096.0;

    #[tactic(auto, unfolding(crate::specs::Made::goal_of))]
    pub fn new(centre: State, radius: f64) -> Option<Goal>
        ensures { result ≡ goal_of centre radius }
    {
        let goal = Goal { centre, radius };
        goal.is_good().then_some(goal)
    }

    #[tactic(auto, unfolding(crate::specs::Ranges::good_goal))]
    pub fn is_good(self) -> bool
        ensures { result ≡ good_goal self }
    {
        self.centre.is_good() && state::inside(Goal::LEAST_RADIUS, Goal::MOST_RADIUS, self.radius)
    }

    #[tactic(auto, unfolding(crate::specs::Satisfied::satisfied_of))]
    pub fn is_satisfied(self, s: State) -> bool
        ensures { result ≡ satisfied_of self s }
    {
        s.distance(self.centre) <= self.radius
    }
}
