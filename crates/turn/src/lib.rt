// One sample (document 01, "RRT-Connect"): a step of the growing tree, and one of the other toward its new node.
#![tactic(auto)]

ghost use Rattle.std.specs.Prelude.{◌≡◌, ◌≤◌, ◌<◌};
ghost use Rattle.tree.specs.Table.{nodes_of};
ghost use Rattle.turn.specs.Turn.{connect_ends_of, Connects, plan_with, Turns};

use extend::Verdict;
use fields::Goal;
use mount::Mount;
use state::State;
use tree::Tree;

// What a sample led to.
#[derive(Clone, Copy)]
pub enum Ends {
    GoesOn,
    // An accepted motion found its tree full.
    Full,
    // The start tree's new node satisfies the goal.
    Goal,
    // The other tree reached the new node itself.
    Joined,
}

// What the other tree's step leads to.
#[tactic(auto, unfolding(crate::specs::Turn::connect_ends_of))]
fn connect_ends(verdict: Verdict, reached: bool) -> Ends
    ensures { result ≡ connect_ends_of verdict reached }
{
    match verdict {
        Verdict::Refused => Ends::GoesOn,
        Verdict::Full => Ends::Full, // The other tree is full.
        Verdict::Added => { if reached { Ends::Joined } else { Ends::GoesOn } }
    }
}

// The other tree makes one step toward the growing tree's new state.
fn connected(other: &mut Tree, mount: &Mount, max_distance: f64, s: State) -> Ends
    requires { (0 < other.old.count) × (other.old.count ≤ 512) }
    ensures { Connects mount.now max_distance (nodes_of other.old) s result other.new }
{
    let f = extend::extend(other, mount, max_distance, s);
    connect_ends(f.verdict, f.reached)
}

// The growing tree makes one step toward a sample, and if that adds a node that is no end, the other tree one toward it.
#[tactic(auto, unfolding(crate::specs::Turn::turn_of, crate::specs::Turn::by_verdict))]
pub fn turn(
    growing: &mut Tree,
    other: &mut Tree,
    from_start: bool,
    goal: Goal,
    mount: &Mount,
    max_distance: f64,
    sample: State,
) -> Ends
    requires growing_rooted { (0 < growing.old.count) × (growing.old.count ≤ 512) }
    requires other_rooted { (0 < other.old.count) × (other.old.count ≤ 512) }
    ensures { Turns (plan_with mount.now max_distance goal) from_start (nodes_of growing.old) (nodes_of other.old) sample result growing.new other.new }
{
    let e = extend::extend(growing, mount, max_distance, sample);
    match e.verdict {
        Verdict::Refused => Ends::GoesOn,
        Verdict::Full => Ends::Full,
        Verdict::Added => {
            if from_start && goal.is_satisfied(e.at) {
                return Ends::Goal;
            }
            connected(other, mount, max_distance, e.at)
        }
    }
}
