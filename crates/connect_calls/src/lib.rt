// The calls on the RRT-Connect planner.
#![tactic(auto)]

ghost use Rattle.std.specs.Prelude.{◌≡◌};
ghost use Rattle.rrt_connect.specs.Planner.{planner_of};
ghost use Rattle.connect_calls.specs.Left.{left_by, setup_from, keepout_from, solve_from, call_of};

use grammar::Verb;
use output::{Out, nodes, replies};
use rrt_connect::RrtConnect;
use script::{Line, NoCall};

#[tactic(auto, unfolding(crate::specs::Left::setup_from))]
fn setup(out: &mut Out, planner: &mut RrtConnect, line: &Line<'_>)
    ensures { planner_of planner.new ≡ setup_from (planner_of planner.old) line.now.numbers.now line.now.table }
{
    let f = given::fields_in(line.numbers);
    let answer = planner.setup(f.limits, f.segment, f.reach, f.start, f.goal, line.table);
    replies::answered(out, answer, 0);
}

#[tactic(auto, unfolding(crate::specs::Left::keepout_from))]
fn keepout(out: &mut Out, planner: &mut RrtConnect, line: &Line<'_>)
    ensures { planner_of planner.new ≡ keepout_from (planner_of planner.old) line.now.table }
{
    let answer = planner.add_keep_out(given::keep_out(&line.table));
    replies::answered(out, answer, 0);
}

// The route buffer is the first capacity numbers of a fresh one.
#[tactic(auto, unfolding(crate::specs::Left::solve_from))]
fn solve(out: &mut Out, planner: &mut RrtConnect, line: &Line<'_>)
    ensures { planner_of planner.new ≡ solve_from (planner_of planner.old) line.now.capacity line.now.numbers.now }
{
    let mut buffer = route_buffer::fresh();
    let route = route_buffer::first(&mut buffer, line.capacity);
    let solved = planner.solve(line.numbers, route);
    replies::routed(out, solved.answer, solved.count, solved.taken, route);
}

fn tables(out: &mut Out, planner: &RrtConnect) {
    nodes::table(
        out,
        b"start",
        planner.start_size(),
        |i| planner.start_node(i),
    );
    nodes::table(out, b"goal", planner.goal_size(), |i| planner.goal_node(i));
}

// Makes a call and writes what it answers, if the planner has such a one.
#[tactic(auto, unfolding(crate::specs::Left::call_of, grammar::specs::Calls::tree_call))]
pub fn call(out: &mut Out, planner: &mut RrtConnect, line: &Line<'_>) -> Result<(), NoCall>
    ensures { left_by planner.new result ≡ call_of (planner_of planner.old) line.now }
{
    match line.verb {
        Verb::Setup => setup(out, planner, line),
        Verb::Keepout => keepout(out, planner, line),
        Verb::Solve => solve(out, planner, line),
        Verb::Tables => tables(out, planner),
        _ => return Err(NoCall),
    }
    Ok(())
}
