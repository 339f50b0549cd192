// The calls on the RRT* planner.
#![tactic(auto)]

ghost use Rattle.std.specs.Prelude.{◌≡◌};
ghost use Rattle.rrt_star.specs.Planner.{planner_of};
ghost use Rattle.star_calls.specs.Left.{left_by, setup_from, keepout_from, solve_from, call_of};

use grammar::Verb;
use output::{Out, nodes, replies};
use rrt_star::RrtStar;
use script::{Line, NoCall};

// One number more than the other tree planners: search_radius, after max_distance.
#[tactic(auto, unfolding(crate::specs::Left::setup_from))]
fn setup(out: &mut Out, planner: &mut RrtStar, line: &Line<'_>)
    ensures { planner_of planner.new ≡ setup_from (planner_of planner.old) line.now.numbers.now line.now.table }
{
    let limits = given::limits(line.numbers);
    let segment = given::length(line.numbers, 6);
    let max_distance = given::length(line.numbers, 7);
    let search_radius = given::length(line.numbers, 8);
    let start = given::state(line.numbers, 9);
    let goal = given::goal(line.numbers, 12);
    let answer = planner.setup(
        limits,
        segment,
        max_distance,
        search_radius,
        start,
        goal,
        line.table,
    );
    replies::answered(out, answer, 0);
}

#[tactic(auto, unfolding(crate::specs::Left::keepout_from))]
fn keepout(out: &mut Out, planner: &mut RrtStar, line: &Line<'_>)
    ensures { planner_of planner.new ≡ keepout_from (planner_of planner.old) line.now.table }
{
    let answer = planner.add_keep_out(given::keep_out(&line.table));
    replies::answered(out, answer, 0);
}

// The route buffer is the first capacity numbers of a fresh one.
#[tactic(auto, unfolding(crate::specs::Left::solve_from))]
fn solve(out: &mut Out, planner: &mut RrtStar, line: &Line<'_>)
    ensures { planner_of planner.new ≡ solve_from (planner_of planner.old) line.now.capacity line.now.numbers.now }
{
    let mut buffer = route_buffer::fresh();
    let route = route_buffer::first(&mut buffer, line.capacity);
    let solved = planner.solve(line.numbers, route);
    replies::routed(out, solved.answer, solved.count, solved.taken, route);
}

// A node's cost stands after its three numbers.
fn tables(out: &mut Out, planner: &RrtStar) {
    let size = planner.size();
    nodes::heading(out, b"tree", size);
    for i in 0..size {
        if let Some(node) = planner.node(i) {
            nodes::node(out, i, node);
        }
        if let Some(cost) = planner.cost(i) {
            out.byte(b' ');
            out.float(cost);
        }
        out.byte(b'\n');
    }
    out.flush();
}

// Makes a call and writes what it answers, if the planner has such a one.
#[tactic(auto, unfolding(crate::specs::Left::call_of, grammar::specs::Calls::tree_call))]
pub fn call(out: &mut Out, planner: &mut RrtStar, line: &Line<'_>) -> Result<(), NoCall>
    ensures { left_by planner.new result ≡ call_of (planner_of planner.old) line.now }
{
    match line.verb {
        Verb::Setup => setup(out, planner, line),
        Verb::Keepout => keepout(out, planner, line),
        Verb::Solve => solve(out, planner, line),
        Verb::Tables => tables(out, planner),
        _ => return Err(NoCall),
    }
    Ok(())
}
