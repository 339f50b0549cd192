// One sample on both trees (document 01, "RRT-Connect"): the goal tree's root, or a turn of the tree that is to grow.
#![tactic(auto)]

ghost use Rattle.std.specs.Prelude.{◌≤◌, ◌<◌};
ghost use Rattle.turn.specs.Turn.{plan_with};
ghost use Rattle.turn.specs.Trees.{trees_at};
ghost use Rattle.round.specs.Round.{Rounds};

use fields::Goal;
use mount::Mount;
use state::State;
use tree::Tree;
use turn::Ends;

// Without a goal root the sample becomes it, untested. Else it grows the start tree when that is at most as large as the goal tree.
#[tactic(auto, unfolding(crate::specs::Round::round_of, tree::specs::Table::nodes_of, tree::specs::Table::nodes_in, tree::specs::Table::pushed_of, tree::specs::Table::root_of), using(tree::proofs::Nodes::nodes_length))]
pub fn round(
    start: &mut Tree,
    goal_tree: &mut Tree,
    goal: Goal,
    mount: &Mount,
    max_distance: f64,
    sample: State,
) -> Ends
    requires start_rooted { (0 < start.old.count) × (start.old.count ≤ 512) }
    requires goal_few { goal_tree.old.count ≤ 512 }
    ensures { Rounds (plan_with mount.now max_distance goal) (trees_at start.old goal_tree.old) sample result start.new goal_tree.new }
{
    let goal_size = goal_tree.len();
    if goal_size == 0 {
        goal_tree.push(sample, Tree::NO_PARENT);
        return Ends::GoesOn;
    }
    if start.len() <= goal_size {
        return turn::turn(start, goal_tree, true, goal, mount, max_distance, sample);
    }
    turn::turn(goal_tree, start, false, goal, mount, max_distance, sample)
}
