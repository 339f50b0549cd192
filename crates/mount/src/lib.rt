// The mount with its limits, segment length and keep-outs: valid states and accepted motions (document 01, "The mount" and "Motion check").
#![tactic(auto)]

ghost use Rattle.std.specs.Prelude.{◌≡◌};
ghost use Rattle.keep_out_table.specs.Table.{keep_outs_of};
ghost use Rattle.motion.specs.Valid.{valid_of};
ghost use Rattle.motion.specs.Points.{steps_of};
ghost use Rattle.motion.specs.Accepts.{accepts_of};
ghost use Rattle.mount.specs.Good.{good_mount};
ghost use Rattle.mount.specs.None.{no_mount};

use fields::{Length, Limits};
use keep_out_table::KeepOuts;
use state::State;

#[derive(Clone, Copy)]
pub struct Mount {
    pub limits: Limits,
    pub segment: Length,
    pub table: KeepOuts,
}

impl Mount {
    // For what is not set up yet: limits of no width, and no keep-out.
    pub fn none() -> Mount
        ensures { result ≡ no_mount }
    {
        let zero = State {
            az: 0.0,
            el: 0.0,
            feed: 0.0,
        };
        Mount {
            limits: Limits {
                low: zero,
                high: zero,
            },
            segment: Length { value: 1.0 },
            table: KeepOuts::new(),
        }
    }

    #[tactic(auto, unfolding(crate::specs::Good::good_mount))]
    pub fn is_good(&self) -> bool
        ensures { result ≡ good_mount self.now }
    {
        self.limits.is_good() && self.segment.is_good() && self.table.is_good()
    }

    // Within the limits, and covered by no keep-out.
    #[tactic(auto, unfolding(motion::specs::Valid::valid_of))]
    pub fn is_valid(&self, s: State) -> bool
        ensures { result ≡ valid_of self.now.limits (keep_outs_of self.now.table) s }
    {
        s.within(self.limits.low, self.limits.high) && !self.table.covers(s)
    }

    // How many points a motion check tests; none where they are too many.
    pub fn steps(&self, from: State, to: State) -> Option<usize>
        ensures { result ≡ steps_of self.now.segment.value from to }
    {
        motion::num_steps(self.segment.value, from, to)
    }

    // Whether the motion from from to to is accepted.
    pub fn check_motion(&self, from: State, to: State) -> bool
        ensures { result ≡ accepts_of self.now.limits self.now.segment.value (keep_outs_of self.now.table) from to }
    {
        motion::accepts(self.limits, self.segment.value, &self.table, from, to)
    }
}
