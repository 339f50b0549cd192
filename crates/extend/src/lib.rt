// One step of a tree toward a target, appended in place (document 01, "RRT-Connect").
#![tactic(auto)]

ghost use Rattle.std.specs.Prelude.{◌≡◌, ◌≤◌, ◌<◌};
ghost use Rattle.keep_out_table.specs.Table.{keep_outs_of};
ghost use Rattle.tree.specs.Table.{nodes_of};
ghost use Rattle.extend.specs.Extend.{after_step, Extends};

use mount::Mount;
use state::State;
use step::Stepped;
use tree::Tree;

#[derive(Clone, Copy)]
pub enum Verdict {
    // The motion is not accepted.
    Refused,
    // It is, and the tree has no place for its node.
    Full,
    // The node is appended.
    Added,
}

#[derive(Clone, Copy)]
pub struct Extended {
    pub verdict: Verdict,
    // The new state, and whether that is the target itself.
    pub at: State,
    pub reached: bool,
}

// Appends the state of an accepted step, where the tree has room for it.
#[tactic(auto, unfolding(crate::specs::Extend::after_step, tree::specs::Table::pushed_of), using(tree::proofs::Push::push_grows, tree::proofs::Nodes::nodes_length))]
fn append(tree: &mut Tree, e: Stepped) -> Verdict
    requires { (0 < tree.old.count) × (tree.old.count ≤ 512) }
    ensures is { record { nodes = nodes_of tree.new; verdict = result; at = e.at; reached = e.reached } ≡ after_step (nodes_of tree.old) e }
    ensures rooted { (0 < tree.new.count) × (tree.new.count ≤ 512) }
{
    if !e.accepted {
        return Verdict::Refused;
    }
    if tree.len() == Tree::MOST {
        return Verdict::Full;
    }
    tree.push(e.at, e.parent);
    Verdict::Added
}

// One tree step toward a target; an accepted node is appended in place, where the tree has room for it.
#[tactic(auto, unfolding(crate::specs::Extend::extend_of, tree::specs::Table::states_of, tree::specs::Table::nodes_of, tree::specs::Table::nodes_in))]
pub fn extend(tree: &mut Tree, mount: &Mount, max_distance: f64, target: State) -> Extended
    requires { (0 < tree.old.count) × (tree.old.count ≤ 512) }
    ensures { Extends mount.now.limits mount.now.segment.value (keep_outs_of mount.now.table) max_distance (nodes_of tree.old) target result tree.new }
{
    let e = step::step(tree, mount, max_distance, target);
    Extended {
        verdict: append(tree, e),
        at: e.at,
        reached: e.reached,
    }
}
