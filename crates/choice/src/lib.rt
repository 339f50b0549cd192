// The choice of a new node's parent (document 01, "RRT*"): the one that costs least.
#![tactic(auto)]

ghost use Rattle.std.specs.Prelude.{◌≡◌, ◌≤◌, ◌<◌, take};
ghost use Rattle.keep_out_table.specs.Table.{keep_outs_of};
ghost use Rattle.tree.specs.Table.{states_of};
ghost use Rattle.neighbours.specs.Neighbours.{Numbers};
ghost use Rattle.choice.specs.Parent.{choose_of};

use mount::Mount;
use state::State;
use tree::Tree;

// A new node's parent, and what the node then costs.
#[derive(Clone, Copy)]
pub struct Choice {
    pub parent: usize,
    pub cost: f64,
}

// The parent that costs least, of the nearest node and the neighbours from which the new state can be reached.
pub fn choose_parent(
    tree: &Tree,
    cost: &[f64; 512],
    neighbours: &[usize],
    mount: &Mount,
    new: State,
    nearest: usize,
) -> Choice
    requires { (tree.now.count ≤ 512) × (nearest < tree.now.count) × Numbers tree.now.count neighbours.now }
    ensures { result ≡ choose_of mount.now.limits mount.now.segment.value (keep_outs_of mount.now.table) (states_of tree.now) (take tree.now.count cost.now) new nearest neighbours.now }
{
    let from = tree.nodes[nearest].state;
    let mut best = Choice {
        parent: nearest,
        cost: cost[nearest] + new.distance(from),
    };
    for &i in neighbours {
        let node = tree.nodes[i].state;
        let via = cost[i] + new.distance(node);
        if via < best.cost && mount.check_motion(node, new) {
            best = Choice {
                parent: i,
                cost: via,
            };
        }
    }
    best
}
