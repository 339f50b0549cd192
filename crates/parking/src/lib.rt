// A roadmap that is built, has keep-outs added to it, as a machine that is parked among the milestones, and is asked for routes. The keep-outs
// that are added stand in the same columns as the setup's, in the rows after those.
#![tactic(auto)]

ghost use Rattle.std.specs.Prelude.{◌≡◌};
ghost use Rattle.plan.specs.Solve.{outcome_of};
ghost use Rattle.prm.specs.Planner.{planner_of, told_of};
ghost use Rattle.prm.specs.Construct.{constructed_of};
ghost use Rattle.prm.specs.Query.{queried_of};
ghost use Rattle.parking.specs.Park.{park_of, build_of};
ghost use Rattle.parking.specs.Chart.{queries_of, chart_of};

use answer::Answer;
use construct::Built;
use keep_out_table::KeepOuts;
use plan::Solved;
use prm::{Prm, Queried};

// Adds the keep-outs of the rows from `first` on, one by one, so many as `added` says. Stops at the first refusal. The columns have 32 rows, so a row
// past them is the 33rd keep-out.
fn park(
    planner: &mut Prm,
    kinds: &[u8; 32],
    numbers: &[f64; 192],
    first: usize,
    added: usize,
) -> Answer
    ensures { told_of planner.new result ≡ park_of kinds.now numbers.now (planner_of planner.old) added first }
{
    for k in 0..added {
        let row = first + k;
        if KeepOuts::MOST <= row {
            return Answer::Full;
        }
        let answer = planner.add_keep_out(columns::keep_out_at(kinds, numbers, row));
        if answer != Answer::Done {
            return answer;
        }
    }
    Answer::Done
}

// Builds the roadmap, and if that is done parks on it.
fn build(
    planner: &mut Prm,
    samples: &[f64],
    kinds: &[u8; 32],
    numbers: &[f64; 192],
    first: usize,
    added: usize,
) -> Built
    ensures { constructed_of planner.new result ≡ build_of kinds.now numbers.now first added (planner_of planner.old) samples.now }
{
    let built = planner.construct_roadmap(samples);
    if built.answer != Answer::Done {
        return built;
    }
    Built {
        answer: park(planner, kinds, numbers, first, added),
        taken: built.taken,
    }
}

// So many queries, each on the route that the one before left. Answers as the last, or as the one that is given. They are counted in a byte: no page
// bounds them, and a call is to end soon on any numbers.
fn ask(planner: &Prm, queries: u8, first: Queried, route: &mut [f64]) -> Queried
    ensures { queried_of result route.new ≡ queries_of (planner_of planner.now) queries (queried_of first route.old) }
{
    let mut last = first;
    for _ in 0..queries {
        last = planner.query(route);
    }
    last
}

// Builds the roadmap, adds the keep-outs of the rows from `first` on, and asks if all that is done.
pub fn chart(
    planner: &mut Prm,
    samples: &[f64],
    kinds: &[u8; 32],
    numbers: &[f64; 192],
    first: usize,
    added: usize,
    queries: u8,
    route: &mut [f64],
) -> Solved
    ensures { outcome_of (planner_of planner.new) result route.new ≡ chart_of (build_of kinds.now numbers.now first added) queries (planner_of planner.old) samples.now route.old }
{
    let built = build(planner, samples, kinds, numbers, first, added);
    let unasked = Queried::refused(built.answer);
    let last = if built.answer == Answer::Done {
        ask(planner, queries, unasked, route)
    } else {
        unasked
    };
    Solved {
        answer: last.answer,
        count: last.count,
        taken: built.taken,
    }
}
