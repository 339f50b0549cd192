// One sample of RRT*: a tree step, and if its node is added the choice of its parent and the rewiring around it.
#![tactic(auto)]

ghost use Rattle.std.specs.Prelude.{◌≡◌, ◌≤◌, ◌<◌, length};
ghost use Rattle.keep_out_table.specs.Table.{keep_outs_of};
ghost use Rattle.star.specs.Grow.{plan_with, tree_of, Adds, Grows};

use extend::Verdict;
use mount::Mount;
use state::State;
use step::Stepped;
use tree::Tree;

#[derive(Clone, Copy)]
pub struct Grown {
    pub verdict: Verdict,
    // The new state.
    pub at: State,
}

// Appends an accepted step's state under the parent that costs least, and rewires its neighbours.
fn add(
    tree: &mut Tree,
    cost: &mut [f64; 512],
    found: &mut [usize; 512],
    mount: &Mount,
    radius: f64,
    e: Stepped,
)
    requires { (tree.old.count < 512) × (e.parent < tree.old.count) × (length cost.old ≡ 512) × (length found.old ≡ 512) }
    ensures { Adds mount.now.limits mount.now.segment.value (keep_outs_of mount.now.table) radius tree.old cost.old e tree.new cost.new found.new }
{
    let n = tree.len();
    let many = neighbours::find_neighbours(tree, e.at, radius, found);
    let near = &found[..many];
    let choice = choice::choose_parent(tree, cost, near, mount, e.at, e.parent);
    tree.push(e.at, choice.parent);
    cost[n] = choice.cost;
    rewire::rewire(tree, cost, near, mount, e.at, choice);
}

// `found` is memory for the neighbours' numbers.
pub fn grow(
    tree: &mut Tree,
    cost: &mut [f64; 512],
    found: &mut [usize; 512],
    mount: &Mount,
    max_distance: f64,
    radius: f64,
    sample: State,
) -> Grown
    requires { (0 < tree.old.count) × (tree.old.count ≤ 512) × (length cost.old ≡ 512) × (length found.old ≡ 512) }
    ensures { Grows (plan_with mount.now max_distance radius) (tree_of tree.old cost.old) sample result tree.new cost.new found.new }
{
    let e = step::step(tree, mount, max_distance, sample);
    let room = tree.len() < Tree::MOST;
    let verdict = if !e.accepted {
        Verdict::Refused
    } else if room {
        add(tree, cost, found, mount, radius, e);
        Verdict::Added
    } else {
        Verdict::Full
    };
    Grown { verdict, at: e.at }
}
