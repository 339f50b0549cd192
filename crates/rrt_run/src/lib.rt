// A run of RRT over a list of samples (document 01, "RRT").
#![tactic(auto)]

ghost use Rattle.std.specs.Prelude.{◌≤◌, ◌<◌, length};
ghost use Rattle.rrt_run.specs.Run.{Runs};

use answer::Answer;
use fields::{Goal, Length};
use mount::Mount;
use plan::Solved;
use tree::Tree;

// Each sample in turn makes one tree step; an accepted state is appended under the nearest node, and then tested against the goal.
pub fn run(
    tree: &mut Tree,
    mount: &Mount,
    max: Length,
    goal: Goal,
    samples: &[f64],
    route: &mut [f64],
) -> Solved
    requires { (0 < tree.old.count) × (tree.old.count ≤ 512) × (1536 ≤ length route.old) }
    ensures { Runs mount.now max goal tree.old samples.now route.old result tree.new route.new }
{
    for (i, sample) in samples.chunks_exact(3).enumerate() {
        let taken = i + 1;
        let e = step::step(tree, mount, max.value, samples::state(sample));
        if !e.accepted {
            continue;
        }
        let node = tree.len();
        if node == Tree::MOST {
            return Solved {
                answer: Answer::Full,
                count: 0,
                taken,
            };
        }
        tree.push(e.at, e.parent);
        if goal.is_satisfied(e.at) {
            let count = route::reconstruct_path(tree, node, route);
            return Solved {
                answer: Answer::Done,
                count,
                taken,
            };
        }
    }
    Solved {
        answer: Answer::SamplesEnded,
        count: 0,
        taken: samples.len() / 3,
    }
}
