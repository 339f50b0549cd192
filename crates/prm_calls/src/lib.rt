// The calls on the PRM planner.
#![tactic(auto)]

ghost use Rattle.std.specs.Prelude.{◌≡◌};
ghost use Rattle.prm.specs.Planner.{planner_of};
ghost use Rattle.prm_calls.specs.Left.{left_by, setup_from, keepout_from, construct_from, goals_from, call_of};

use grammar::Verb;
use output::{Out, nodes, replies};
use prm::Prm;
use script::{Line, NoCall};

// The connection radius stands where a tree planner has max_distance.
#[tactic(auto, unfolding(crate::specs::Left::setup_from))]
fn setup(out: &mut Out, planner: &mut Prm, line: &Line<'_>)
    ensures { planner_of planner.new ≡ setup_from (planner_of planner.old) line.now.numbers.now line.now.table }
{
    let f = given::fields_in(line.numbers);
    let answer = planner.setup(f.limits, f.segment, f.reach, f.start, f.goal, line.table);
    replies::answered(out, answer, 0);
}

#[tactic(auto, unfolding(crate::specs::Left::keepout_from))]
fn keepout(out: &mut Out, planner: &mut Prm, line: &Line<'_>)
    ensures { planner_of planner.new ≡ keepout_from (planner_of planner.old) line.now.table }
{
    let answer = planner.add_keep_out(given::keep_out(&line.table));
    replies::answered(out, answer, 0);
}

#[tactic(auto, unfolding(crate::specs::Left::construct_from))]
fn construct(out: &mut Out, planner: &mut Prm, line: &Line<'_>)
    ensures { planner_of planner.new ≡ construct_from (planner_of planner.old) line.now.numbers.now }
{
    let built = planner.construct_roadmap(line.numbers);
    replies::answered(out, built.answer, built.taken);
}

#[tactic(auto, unfolding(crate::specs::Left::goals_from))]
fn goals(out: &mut Out, planner: &mut Prm, line: &Line<'_>)
    ensures { planner_of planner.new ≡ goals_from (planner_of planner.old) line.now.numbers.now }
{
    let start = given::state(line.numbers, 0);
    let goal = given::goal(line.numbers, 3);
    let answer = planner.replace_goals(start, goal);
    replies::answered(out, answer, 0);
}

// The route buffer is the first capacity numbers of a fresh one. A query takes no sample.
fn query(out: &mut Out, planner: &Prm, capacity: usize) {
    let mut buffer = route_buffer::fresh();
    let route = route_buffer::first(&mut buffer, capacity);
    let queried = planner.query(route);
    replies::routed(out, queried.answer, queried.count, 0, route);
}

// A milestone's index, its three numbers, and the indices of its neighbours, upwards.
fn milestone(out: &mut Out, planner: &Prm, i: usize) {
    nodes::index(out, i);
    if let Some(state) = planner.milestone(i) {
        out.state(state);
    }
    for j in 0..planner.size() {
        if planner.has_leg(i, j) {
            out.byte(b' ');
            out.number(j);
        }
    }
    out.byte(b'\n');
}

fn tables(out: &mut Out, planner: &Prm) {
    let size = planner.size();
    nodes::heading(out, b"roadmap", size);
    for i in 0..size {
        milestone(out, planner, i);
    }
    out.flush();
}

// Makes a call and writes what it answers, if the planner has such a one.
#[tactic(auto, unfolding(crate::specs::Left::call_of, grammar::specs::Calls::prm_call))]
pub fn call(out: &mut Out, planner: &mut Prm, line: &Line<'_>) -> Result<(), NoCall>
    ensures { left_by planner.new result ≡ call_of (planner_of planner.old) line.now }
{
    match line.verb {
        Verb::Setup => setup(out, planner, line),
        Verb::Keepout => keepout(out, planner, line),
        Verb::Construct => construct(out, planner, line),
        Verb::Goals => goals(out, planner, line),
        Verb::Query => query(out, planner, line.capacity),
        Verb::Tables => tables(out, planner),
        _ => return Err(NoCall),
    }
    Ok(())
}
