// The planners for a host in C or Rust, and for the benchmark: a setup and a solve, or a roadmap and its queries, in one call on plain numbers.
// The crate host_c exports these functions to C under the same names.
#![tactic(auto)]

ghost use Rattle.std.specs.Prelude.{◌≡◌};
ghost use Rattle.answer.specs.Number.{number_of};
ghost use Rattle.host.specs.Call.{Called, rrt_call, connect_call, star_call, prm_call};

use answer::Answer;
use fields::Length;
use plan::Solved;
use prm::Prm;
use rrt::Rrt;
use rrt_connect::RrtConnect;
use rrt_star::RrtStar;

// The answer's number in document 01's table, the route's number of states, and the samples taken.
#[repr(C)]
#[derive(Clone, Copy)]
pub struct Report {
    pub answer: usize,
    pub count: usize,
    pub taken: usize,
}

// What a call answered, with the answer as its number.
fn reported(solved: Solved) -> Report
    ensures { result ≡ record { answer = number_of solved.answer; count = solved.count; taken = solved.taken } }
{
    Report {
        answer: usize::from(solved.answer),
        count: solved.count,
        taken: solved.taken,
    }
}

fn refused(answer: Answer) -> Report
    ensures { result ≡ record { answer = number_of answer; count = 0; taken = 0 } }
{
    reported(Solved::refused(answer))
}

// Sets a planner up and solves once. The fifteen numbers are those of the setup, in document 01's order.
pub fn rindmosaic_rrt(
    setup: &[f64; 15],
    kinds: &[u8; 32],
    numbers: &[f64; 192],
    keep_outs: usize,
    samples: &[f64],
    route: &mut [f64],
) -> Report
    ensures { Called (rrt_call setup.now kinds.now keep_outs samples.now route.old) kinds.now numbers.now keep_outs result route.new }
{
    let f = given::fields_in(setup);
    let table = listing::table_of(kinds, numbers, keep_outs);
    if !listing::are_known(kinds, keep_outs) {
        return refused(Answer::BadInput);
    }
    let mut rrt = Rrt::new();
    let told = rrt.setup(f.limits, f.segment, f.reach, f.start, f.goal, table);
    if told != Answer::Done {
        return refused(told);
    }
    reported(rrt.solve(samples, route))
}

// The same with RRT-Connect.
pub fn rindmosaic_connect(
    setup: &[f64; 15],
    kinds: &[u8; 32],
    numbers: &[f64; 192],
    keep_outs: usize,
    samples: &[f64],
    route: &mut [f64],
) -> Report
    ensures { Called (connect_call setup.now kinds.now keep_outs samples.now route.old) kinds.now numbers.now keep_outs result route.new }
{
    let f = given::fields_in(setup);
    let table = listing::table_of(kinds, numbers, keep_outs);
    if !listing::are_known(kinds, keep_outs) {
        return refused(Answer::BadInput);
    }
    let mut connect = RrtConnect::new();
    let told = connect.setup(f.limits, f.segment, f.reach, f.start, f.goal, table);
    if told != Answer::Done {
        return refused(told);
    }
    reported(connect.solve(samples, route))
}

// The same with RRT*, whose search radius comes beside the fifteen numbers.
pub fn rindmosaic_star(
    setup: &[f64; 15],
    search_radius: f64,
    kinds: &[u8; 32],
    numbers: &[f64; 192],
    keep_outs: usize,
    samples: &[f64],
    route: &mut [f64],
) -> Report
    ensures { Called (star_call setup.now search_radius kinds.now keep_outs samples.now route.old) kinds.now numbers.now keep_outs result route.new }
{
    let f = given::fields_in(setup);
    let table = listing::table_of(kinds, numbers, keep_outs);
    let radius = Length {
        value: search_radius,
    };
    if !listing::are_known(kinds, keep_outs) {
        return refused(Answer::BadInput);
    }
    let mut star = RrtStar::new();
    let told = star.setup(f.limits, f.segment, f.reach, radius, f.start, f.goal, table);
    if told != Answer::Done {
        return refused(told);
    }
    reported(star.solve(samples, route))
}

// PRM: a setup, a construction, keep-outs that are added and queries. With none added and no query the call builds and reports; with many it adds to one
// roadmap, or asks the same of it again, so that each can be timed apart. The eighth of the fifteen numbers is connection_radius. The setup has the first
// `keep_outs` rows of the columns, and the next `added` rows are added to what was built, in order. The queries are at most the 255 that a byte holds.
pub fn rindmosaic_prm(
    setup: &[f64; 15],
    kinds: &[u8; 32],
    numbers: &[f64; 192],
    keep_outs: usize,
    added: usize,
    samples: &[f64],
    queries: u8,
    route: &mut [f64],
) -> Report
    ensures { Called (prm_call setup.now kinds.now numbers.now keep_outs added samples.now queries route.old) kinds.now numbers.now keep_outs result route.new }
{
    let f = given::fields_in(setup);
    let table = listing::table_of(kinds, numbers, keep_outs);
    if !listing::are_known_with(kinds, keep_outs, added) {
        return refused(Answer::BadInput);
    }
    let mut prm = Prm::new();
    let told = prm.setup(f.limits, f.segment, f.reach, f.start, f.goal, table);
    if told != Answer::Done {
        return refused(told);
    }
    reported(parking::chart(
        &mut prm, samples, kinds, numbers, keep_outs, added, queries, route,
    ))
}
