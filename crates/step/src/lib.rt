// One tree step (document 01, "Tree step").
#![tactic(auto)]

ghost use Rattle.std.specs.Prelude.{◌≡◌, ◌≤◌, ◌<◌};
ghost use Rattle.keep_out_table.specs.Table.{keep_outs_of};
ghost use Rattle.tree.specs.Table.{states_of};
ghost use Rattle.step.specs.Step.{step_of};

use mount::Mount;
use state::State;
use tree::Tree;

// What a tree step found: the new state, the node that it was reached from, whether it is the sample itself, and whether the motion
// is accepted.
#[derive(Clone, Copy)]
pub struct Stepped {
    pub at: State,
    pub parent: usize,
    pub reached: bool,
    pub accepted: bool,
}

// One tree step toward a sample: nearest node, new state, motion check.
pub fn step(tree: &Tree, mount: &Mount, max_distance: f64, sample: State) -> Stepped
    requires { (0 < tree.now.count) × (tree.now.count ≤ 512) }
    ensures { result ≡ step_of mount.now.limits mount.now.segment.value (keep_outs_of mount.now.table) max_distance (states_of tree.now) sample }
{
    let near = nearest::nearest(tree, sample);
    let from = tree.nodes[near.index].state;
    let at = from.steer_by(sample, max_distance, near.far);
    Stepped {
        at,
        parent: near.index,
        reached: !(max_distance < near.far),
        accepted: mount.check_motion(from, at),
    }
}
