// A tree of states in a table, read by index. A planner lends its tree to what only reads it, and appends in place.
#![tactic(auto)]

ghost use Rattle.std.specs.Prelude.{◌≡◌, ◌<◌, length, take};
ghost use Rattle.tree.specs.Table.{nodes_of, node_at_of, rooted_of, none_of, pushed_of};

use state::State;

// A node's state and its parent's number.
#[derive(Clone, Copy)]
pub struct Node {
    pub state: State,
    pub parent: usize,
}

// The first count places hold the nodes, in the order in which they were added. A count beyond the table reads as its end.
#[derive(Clone, Copy)]
pub struct Tree {
    pub nodes: [Node; 512],
    pub count: usize,
}

// What stands at a number: a root, or a node with its parent's number.
#[derive(Clone, Copy)]
pub enum NodeAt {
    Root(State),
    Child(State, usize),
}

impl Tree {
    pub const MOST: usize = 512;

    // The parent of a root: no node's number.
    pub const NO_PARENT: usize = 512;

    // A tree of its root alone.
    pub fn rooted(state: State) -> Tree
        ensures { result ≡ rooted_of state }
    {
        let root = Node {
            state,
            parent: Tree::NO_PARENT,
        };
        Tree {
            nodes: [root; 512],
            count: 1,
        }
    }

    // A tree without a root.
    pub fn none() -> Tree
        ensures { result ≡ none_of }
    {
        let zero = State {
            az: 0.0,
            el: 0.0,
            feed: 0.0,
        };
        let nowhere = Node {
            state: zero,
            parent: Tree::NO_PARENT,
        };
        Tree {
            nodes: [nowhere; 512],
            count: 0,
        }
    }

    // The places that hold nodes.
    pub fn held(&self) -> &[Node]
        ensures { result.now ≡ take self.now.count self.now.nodes }
    {
        let count = self.count.min(Tree::MOST);
        &self.nodes[..count]
    }

    // How many nodes there are. A caller learns besides how many places the table has.
    pub fn len(&self) -> usize
        ensures nodes { result ≡ length (nodes_of self.now).states }
        ensures sized { length self.now.nodes ≡ 512 }
    {
        self.nodes[..self.count.min(Tree::MOST)].len()
    }

    // One node more, in the next place.
    pub fn push(&mut self, state: State, parent: usize)
        requires { self.old.count < 512 }
        ensures { self.new ≡ pushed_of self.old state parent }
    {
        self.nodes[self.count] = Node { state, parent };
        self.count += 1;
    }

    // The node at i. A parent that is no node makes a root.
    pub fn node_at(&self, i: usize) -> Option<NodeAt>
        ensures { result ≡ node_at_of (nodes_of self.now) i }
    {
        let nodes = self.held();
        if nodes.len() <= i {
            return None;
        }
        let node = nodes[i];
        if node.parent < nodes.len() {
            return Some(NodeAt::Child(node.state, node.parent));
        }
        Some(NodeAt::Root(node.state))
    }
}
