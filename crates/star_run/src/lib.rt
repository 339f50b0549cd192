// A run over a list of samples (document 01, "RRT*"): each grows the tree, until a new node satisfies the goal or none can be added.
#![tactic(auto)]

ghost use Rattle.std.specs.Prelude.{◌≤◌, ◌<◌, length};
ghost use Rattle.star_run.specs.Run.{Runs};

use answer::Answer;
use extend::Verdict;
use fields::{Goal, Length};
use mount::Mount;
use plan::Solved;
use tree::Tree;

pub fn run(
    tree: &mut Tree,
    cost: &mut [f64; 512],
    mount: &Mount,
    max: Length,
    radius: Length,
    goal: Goal,
    samples: &[f64],
    route: &mut [f64],
) -> Solved
    requires { (0 < tree.old.count) × (tree.old.count ≤ 512) × (1536 ≤ length route.old) }
    ensures { Runs mount.now max radius goal tree.old cost.old samples.now route.old result tree.new cost.new route.new }
{
    let mut found = [0; 512];
    for (i, sample) in samples.chunks_exact(3).enumerate() {
        let taken = i + 1;
        let s = samples::state(sample);
        let g = star::grow(tree, cost, &mut found, mount, max.value, radius.value, s);
        match g.verdict {
            Verdict::Refused => {}
            Verdict::Full => {
                return Solved {
                    answer: Answer::Full,
                    count: 0,
                    taken,
                };
            }
            Verdict::Added => {
                if goal.is_satisfied(g.at) {
                    let newest = tree.len() - 1;
                    let count = route::reconstruct_path(tree, newest, route);
                    return Solved {
                        answer: Answer::Done,
                        count,
                        taken,
                    };
                }
            }
        }
    }
    Solved {
        answer: Answer::SamplesEnded,
        count: 0,
        taken: samples.len() / 3,
    }
}
