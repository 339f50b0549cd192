// The motion check (document 01, "Motion check").
#![tactic(auto)]

ghost use Rattle.std.specs.Prelude.{true, ◌≡◌, ◌≤◌};
ghost use Rattle.std.specs.Float.Ieee.{le};
ghost use Rattle.keep_out_table.specs.Table.{keep_outs_of};
ghost use Rattle.motion.specs.Points.{most_points, Least, steps_of, point_at};
ghost use Rattle.motion.specs.Accepts.{accepts_of};

use fields::Limits;
use keep_out_table::KeepOuts;
use state::State;

// The steps of a motion. What bounds them stands here, at a type, as the bounds of the other numbers do.
#[derive(Clone, Copy)]
pub struct Steps;

impl Steps {
    // The part of a segment that one step takes.
    pub const PART: f64 = 0.1;

    // The most points of a motion that is looked at.
    pub const MOST_POINTS: f64 = 4096.0;
}

// The least whole number that is not below q. A u32 becomes a float in one instruction, where a usize takes six.
fn least(q: f64) -> usize
    requires { le q most_points ≡ true }
    ensures { Least q result }
{
    let mut n: u32 = 0;
    let found = 'numbers: loop {
        if q <= n as f64 {
            break 'numbers n;
        }
        n += 1;
    };
    found as usize
}

// The n of the motion check; none where it is more than 4,096, and the motion is not accepted.
pub fn num_steps(segment: f64, from: State, to: State) -> Option<usize>
    ensures { result ≡ steps_of segment from to }
{
    let q = from.distance(to) / (segment * Steps::PART);
    if q <= Steps::MOST_POINTS {
        return Some(least(q));
    }
    None
}

// The i-th of the points that a motion of n steps tests.
fn point(from: State, to: State, n: usize, i: usize) -> State
    requires { (i ≤ 4096) × (n ≤ 4096) }
    ensures { result ≡ point_at from to n i }
{
    if n <= 1 {
        to
    } else {
        from.interpolate(to, i as f64 / n as f64)
    }
}

// Whether the motion from from to to is accepted. The walk is left at the first point that is not valid.
pub fn accepts(limits: Limits, segment: f64, table: &KeepOuts, from: State, to: State) -> bool
    ensures { result ≡ accepts_of limits segment (keep_outs_of table.now) from to }
{
    let Some(n) = num_steps(segment, from, to) else {
        return false;
    };
    let slots = table.held();
    let last = n.max(1);
    'points: for i in 1..=last {
        let s = point(from, to, n, i);
        if !s.within(limits.low, limits.high) {
            return false;
        }
        'keep_outs: for slot in slots {
            if slot.held.covers(s) {
                return false;
            }
        }
    }
    true
}
