// The neighbours of a new state (document 01, "RRT*"), found before the state is appended.
#![tactic(auto)]

ghost use Rattle.std.specs.Prelude.{◌≡◌, ◌≤◌, length};
ghost use Rattle.tree.specs.Table.{states_of};
ghost use Rattle.neighbours.specs.Neighbours.{Found};

use state::State;
use tree::Tree;

// Writes the numbers of the nodes that are strictly inside the radius of a new state, in order, and returns how many there are.
pub fn find_neighbours(tree: &Tree, new: State, radius: f64, found: &mut [usize; 512]) -> usize
    requires { (tree.now.count ≤ 512) × (length found.old ≡ 512) }
    ensures { Found radius new tree.now.count (states_of tree.now) result found.new }
{
    let mut many = 0;
    for (i, node) in tree.held().iter().enumerate() {
        if new.distance(node.state) < radius {
            found[many] = i;
            many += 1;
        }
    }
    many
}
