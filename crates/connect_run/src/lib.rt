// A run over a list of samples (document 01, "RRT-Connect"): each makes a round, until one ends the run or the list is used up.
#![tactic(auto)]

ghost use Rattle.std.specs.Prelude.{◌≤◌, ◌<◌, length};
ghost use Rattle.connect_run.specs.Run.{Runs};

use answer::Answer;
use fields::{Goal, Length};
use mount::Mount;
use plan::Solved;
use tree::Tree;

// Each sample in turn, until one ends the run.
pub fn run(
    start: &mut Tree,
    goal: &mut Tree,
    mount: &Mount,
    max: Length,
    target: Goal,
    samples: &[f64],
    route: &mut [f64],
) -> Solved
    requires { (0 < start.old.count) × (start.old.count ≤ 512) × (goal.old.count ≤ 512) × (3069 ≤ length route.old) }
    ensures { Runs mount.now max target start.old goal.old samples.now route.old result start.new goal.new route.new }
{
    for (i, sample) in samples.chunks_exact(3).enumerate() {
        let taken = i + 1;
        let ends = round::round(
            start,
            goal,
            target,
            mount,
            max.value,
            samples::state(sample),
        );
        if !ending::goes_on(ends) {
            return Solved {
                answer: ending::answer_of(ends),
                count: ending::write(ends, start, goal, route),
                taken,
            };
        }
    }
    Solved {
        answer: Answer::SamplesEnded,
        count: 0,
        taken: samples.len() / 3,
    }
}
