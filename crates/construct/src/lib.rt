// The construction of a roadmap of samples (document 01, "PRM construction").
#![tactic(auto)]

ghost use Rattle.std.specs.Prelude.{◌≡◌, ℕ, ◌<◌, length};
ghost use Rattle.keep_out_table.specs.Table.{keep_outs_of};
ghost use Rattle.samples.specs.Samples.{samples_of};
ghost use Rattle.state.specs.Rows.{state_at};
ghost use Rattle.roadmap.specs.View.{milestones_of, Joins};
ghost use Rattle.construct.specs.Construct.{joined_of, construct_of, built_of};

use answer::Answer;
use mount::Mount;
use roadmap::Roadmap;
use state::State;

// How a construction ended.
#[derive(Clone, Copy)]
pub struct Built {
    pub answer: Answer,
    // The samples taken.
    pub taken: usize,
}

impl Built {
    // A refusal takes no sample.
    pub fn refused(answer: Answer) -> Built
        ensures { result ≡ record { answer = answer; taken = 0 } }
    {
        Built { answer, taken: 0 }
    }
}

// Whether one state is reached from another: strictly inside the radius, by an accepted motion.
#[tactic(auto, unfolding(crate::specs::Construct::joined_of))]
pub fn reaches(mount: &Mount, radius: f64, from: State, to: State) -> bool
    ensures { result ≡ joined_of mount.now.limits mount.now.segment.value (keep_outs_of mount.now.table) radius from to }
{
    from.distance(to) < radius && mount.check_motion(from, to)
}

// Joins a new milestone, which comes after the earlier ones, to each of those that it reaches.
fn join_earlier(legs: &mut [u64; 1024], earlier: &[State], mount: &Mount, radius: f64, new: State)
    requires { length earlier.now < 256 }
    ensures { Joins legs.old (length earlier.now) (length earlier.now) (λ (j : ℕ). joined_of mount.now.limits mount.now.segment.value (keep_outs_of mount.now.table) radius new (state_at earlier.now j)) legs.new }
{
    for (j, milestone) in earlier.iter().enumerate() {
        if reaches(mount, radius, new, *milestone) {
            legs::link(legs, earlier.len(), j);
        }
    }
}

// Each valid sample becomes a milestone, joined to the earlier ones that it reaches. A roadmap that is not empty stays as it is.
pub fn construct(map: &mut Roadmap, mount: &Mount, radius: f64, samples: &[f64]) -> Built
    ensures { built_of map.new result ≡ construct_of mount.now.limits mount.now.segment.value (keep_outs_of mount.now.table) radius (milestones_of map.old) (samples_of samples.now) }
{
    if map.count != 0 {
        return Built {
            answer: Answer::Done,
            taken: 0,
        };
    }
    *map = Roadmap::empty();
    for (at, sample) in samples.chunks_exact(3).enumerate() {
        let s = samples::state(sample);
        if mount.is_valid(s) {
            if map.count == Roadmap::MOST {
                *map = Roadmap::empty();
                return Built {
                    answer: Answer::Full,
                    taken: at + 1,
                };
            }
            join_earlier(
                &mut map.legs,
                &map.milestones[..map.count],
                mount,
                radius,
                s,
            );
            map.push(s);
        }
    }
    Built {
        answer: Answer::Done,
        taken: samples.len() / 3,
    }
}
