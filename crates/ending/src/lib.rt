// What a sample led to (document 01, "RRT-Connect"), as an answer and as a route.
#![tactic(auto)]

ghost use Rattle.std.specs.Prelude.{◌≡◌, ◌≤◌, ◌<◌, ◌+◌, length};
ghost use Rattle.tree.specs.Table.{nodes_of};
ghost use Rattle.turn.specs.Trees.{trees_at};
ghost use Rattle.ending.specs.Ending.{goes_on_of, answer_of, newest, WroteEnd};

use answer::Answer;
use tree::Tree;
use turn::Ends;

pub fn goes_on(ends: Ends) -> bool
    ensures { result ≡ goes_on_of ends }
{
    matches!(ends, Ends::GoesOn)
}

pub fn answer_of(ends: Ends) -> Answer
    ensures { result ≡ answer_of ends }
{
    match ends {
        Ends::GoesOn => Answer::SamplesEnded,
        Ends::Full => Answer::Full,
        Ends::Goal | Ends::Joined => Answer::Done,
    }
}

// The number of a tree's newest node.
#[tactic(auto, using(tree::proofs::Nodes::nodes_length))]
fn newest(tree: &Tree) -> usize
    requires { (0 < tree.now.count) × (tree.now.count ≤ 512) }
    ensures node { result ≡ newest (nodes_of tree.now) }
    ensures last { result + 1 ≡ tree.now.count }
{
    tree.len() - 1
}

// Writes the route, if there is one, and returns how many states it has: from the start tree's root to its newest node, and where the
// trees joined from there up the goal tree to its root, the connection once.
#[tactic(auto, unfolding(crate::specs::Ending::end_path, route::specs::Written::written_of, route::specs::Written::flat_of))]
pub fn write(ends: Ends, start: &Tree, goal: &Tree, route: &mut [f64]) -> usize
    requires { (0 < start.now.count) × (start.now.count ≤ 512) × (0 < goal.now.count) × (goal.now.count ≤ 512) × (3069 ≤ length route.old) }
    ensures { WroteEnd ends (trees_at start.now goal.now) route.old result route.new }
{
    match ends {
        Ends::GoesOn | Ends::Full => 0,
        Ends::Goal => route::reconstruct_path(start, newest(start), route),
        Ends::Joined => {
            let k = route::reconstruct_path(start, newest(start), route);
            let up = route::append_ancestors(goal, newest(goal), route, k);
            k + up
        }
    }
}
