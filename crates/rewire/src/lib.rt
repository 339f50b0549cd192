// The rewiring around a new node (document 01, "RRT*"): neighbours that are cheaper under it move.
#![tactic(auto)]

ghost use Rattle.std.specs.Prelude.{◌≡◌, ◌≤◌, ◌<◌, length};
ghost use Rattle.keep_out_table.specs.Table.{keep_outs_of};
ghost use Rattle.neighbours.specs.Neighbours.{Numbers};
ghost use Rattle.rewire.specs.Rewiring.{Rewires};

use choice::Choice;
use mount::Mount;
use state::State;
use tree::Tree;

// The new node is the tree's last. Each neighbour that costs less under it and can be reached from it moves there; the new node's parent stays.
pub fn rewire(
    tree: &mut Tree,
    cost: &mut [f64; 512],
    neighbours: &[usize],
    mount: &Mount,
    new: State,
    choice: Choice,
)
    requires { (0 < tree.old.count) × (tree.old.count ≤ 512) × Numbers tree.old.count neighbours.now × (length cost.old ≡ 512) }
    ensures { Rewires mount.now.limits mount.now.segment.value (keep_outs_of mount.now.table) new choice tree.old cost.old neighbours.now tree.new cost.new }
{
    let number = tree.count - 1;
    for &i in neighbours {
        let node = tree.nodes[i].state;
        let under = choice.cost + node.distance(new);
        if i != choice.parent && under < cost[i] && mount.check_motion(new, node) {
            tree.nodes[i].parent = number;
            cost[i] = under;
        }
    }
}
