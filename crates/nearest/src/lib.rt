// The node of a tree that is nearest to a state (document 01, "Tree step").
#![tactic(auto)]

ghost use Rattle.std.specs.Prelude.{◌≡◌};
ghost use Rattle.tree.specs.Table.{states_of};
ghost use Rattle.nearest.specs.Nearest.{nearest_of};

use state::State;
use tree::Tree;

// A node's number with its distance.
#[derive(Clone, Copy)]
pub struct Near {
    pub index: usize,
    pub far: f64,
}

// The lowest index of least distance among a tree's nodes.
pub fn nearest(tree: &Tree, s: State) -> Near
    ensures { result ≡ nearest_of (states_of tree.now) s }
{
    let nodes = tree.held();
    if nodes.is_empty() {
        return Near { index: 0, far: 0.0 };
    }
    let root = nodes[0].state;
    let mut best = Near {
        index: 0,
        far: root.distance(s),
    };
    for (index, node) in nodes.iter().enumerate() {
        let far = node.state.distance(s);
        if far < best.far {
            best = Near { index, far };
        }
    }
    best
}
