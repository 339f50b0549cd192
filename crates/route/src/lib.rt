// The route from a tree's root to a node, written to lent memory.
#![tactic(auto)]

ghost use Rattle.std.specs.Prelude.{◌≡◌, ◌≤◌, ◌<◌, ◌*◌, ◌+◌, length};
ghost use Rattle.tree.specs.Table.{nodes_of};
ghost use Rattle.route.specs.Path.{Depth};
ghost use Rattle.route.specs.Written.{put_of, Wrote, Appended};

use state::State;
use tree::Tree;

// How many states the route to a node has. A parent that is no node ends it, and so does the count, should parents run in a circle.
fn depth(tree: &Tree, node: usize) -> usize
    requires { (node < tree.now.count) × (tree.now.count ≤ 512) }
    ensures { Depth (nodes_of tree.now) node result }
{
    let mut parent = tree.nodes[node].parent;
    for n in 1..tree.count {
        if tree.count <= parent {
            return n;
        }
        parent = tree.nodes[parent].parent;
    }
    tree.count
}

// Writes three numbers from the place p on.
fn put(route: &mut [f64], p: usize, s: State)
    requires { p + 3 ≤ length route.old }
    ensures { route.new ≡ put_of route.old p s }
{
    route[p..p + 3].copy_from_slice(&[s.az, s.el, s.feed]);
}

// Writes the route to a node, root first, and returns how many states it has. It is written from the back, since a node knows its
// parent and not its children.
pub fn reconstruct_path(tree: &Tree, node: usize, route: &mut [f64]) -> usize
    requires { (node < tree.now.count) × (tree.now.count ≤ 512) × (3 * tree.now.count ≤ length route.old) }
    ensures { Wrote (nodes_of tree.now) node route.old result route.new }
{
    let count = depth(tree, node);
    let mut at = node;
    for place in (1..count).rev() {
        let here = tree.nodes[at];
        put(route, 3 * place, here.state);
        at = here.parent;
    }
    let root = tree.nodes[at].state;
    put(route, 0, root);
    count
}

// Writes the states of a node's ancestors, its parent first and the root last, from the place of state number from on, and returns
// how many there are: the way on where a route comes in at a node of a tree that is rooted at its end.
pub fn append_ancestors(tree: &Tree, node: usize, route: &mut [f64], from: usize) -> usize
    requires { (node < tree.now.count) × (tree.now.count ≤ 512) × (3 * (from + tree.now.count) ≤ length route.old + 3) }
    ensures { Appended (nodes_of tree.now) node from route.old result route.new }
{
    let others = tree.count - 1;
    let mut here = tree.nodes[node];
    for k in 0..others {
        if tree.count <= here.parent {
            return k;
        }
        here = tree.nodes[here.parent];
        put(route, 3 * (from + k), here.state);
    }
    others
}
