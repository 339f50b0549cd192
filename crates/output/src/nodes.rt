// The tables of a planner.
use crate::Out;
use tree::NodeAt;

// A table's name and size.
pub fn heading(out: &mut Out, name: &[u8], size: usize) {
    out.text(name);
    out.byte(b' ');
    out.number(size);
    out.byte(b'\n');
}

// An index, as the line of a node or a milestone starts with it.
pub fn index(out: &mut Out, i: usize) {
    out.text(b"  ");
    out.number(i);
    out.byte(b' ');
}

// A node's index, its parent's or `-`, and its three numbers. What may follow them, and the line's end, are the caller's.
pub fn node(out: &mut Out, i: usize, node: NodeAt) {
    index(out, i);
    match node {
        NodeAt::Root(s) => {
            out.text(b"- ");
            out.state(s);
        }
        NodeAt::Child(s, parent) => {
            out.number(parent);
            out.byte(b' ');
            out.state(s);
        }
    }
}

// A table of so many nodes: its heading, and a line to each.
pub fn table<F: Fn(usize) -> Option<NodeAt>>(out: &mut Out, name: &[u8], size: usize, node_at: F)
    requires { F.IsAlwaysCallable node_at }
{
    heading(out, name, size);
    for i in 0..size {
        if let Some(found) = node_at(i) {
            node(out, i, found);
        }
        out.byte(b'\n');
    }
    out.flush();
}
