// The queue of a PRM query's search (document 01, "PRM query"): milestones in the order in which they were reached, each once.
#![tactic(auto)]

ghost use Rattle.std.specs.Prelude.{◌≡◌, ◌∷◌, [], ℕ, ◌≤◌, ◌<◌, length, map};
ghost use Rattle.keep_out_table.specs.Table.{keep_outs_of};
ghost use Rattle.legs.specs.Bits.{leg_at};
ghost use Rattle.construct.specs.Construct.{joined_of};
ghost use Rattle.roadmap.specs.View.{span_of};
ghost use Rattle.queue.specs.Places.{numbers_of, push_of};

use mount::Mount;
use state::State;
use std::marker::Model;

// The first count places are queued: a milestone's number, and from where it was reached. A milestone that is queued has its mark, and
// `seen` has the marks once more, as a row of bits: beside a row of legs it tells which neighbours are left, a word at a time.
#[derive(Drop)]
pub struct Queue {
    pub marks: [bool; 256],
    pub seen: [u64; 4],
    pub order: [usize; 256],
    pub from: [usize; 256],
    pub count: usize,
}

// Clauses see the places, in order.
impl Model for Queue {
    ghost use Rattle.std.specs.Prelude.{List};
    ghost use Rattle.queue.specs.Places.{Place};

    ghost Value = { List Place };

    ghost use Rattle.queue.specs.Queue.{places_of, Held};

    ghost view = { places_of };

    ghost invariant = { Held };
}

impl Queue {
    // No milestone is queued.
    pub fn new() -> Queue
        ensures { result ≡ [] }
    {
        Queue {
            marks: [false; 256],
            seen: [0; 4],
            order: [0; 256],
            from: [0; 256],
            count: 0,
        }
    }

    // Queues a milestone as reached from the place `from`, unless it is queued.
    #[tactic(auto, using(crate::proofs::Tables::room))]
    fn push(&mut self, number: usize, from: usize)
        requires { number < 256 }
        ensures { self.new ≡ push_of from self.old (number ∷ []) }
    {
        if self.marks[number] {
            return;
        }
        self.marks[number] = true;
        legs::mark(&mut self.seen, 0, number);
        self.order[self.count] = number;
        self.from[self.count] = from;
        self.count += 1;
    }

    // Queues the milestones that the start reaches, in order.
    pub fn connect(&mut self, mount: &Mount, radius: f64, start: State, milestones: &[State])
        requires { length milestones.now ≤ 256 }
        ensures { self.new ≡ push_of 0 self.old (numbers_of 0 (map (joined_of mount.now.limits mount.now.segment.value (keep_outs_of mount.now.table) radius start) milestones.now)) }
    {
        for (number, milestone) in milestones.iter().enumerate() {
            if construct::reaches(mount, radius, start, *milestone) {
                self.push(number, 0);
            }
        }
    }

    // Queues the neighbours of a milestone among the first count ones, ascending. Most are queued already, and those are not met.
    pub fn spread(&mut self, legs: &[u64; 1024], milestone: usize, count: usize, from: usize)
        requires { (milestone < 256) × (count ≤ 256) }
        ensures { self.new ≡ push_of from self.old (numbers_of 0 (span_of 0 count (leg_at legs.now milestone))) }
    {
        let mut next = 0;
        'row: while let Some(number) = legs::next_unseen(legs, milestone, &self.seen, next, count) {
            self.push(number, from);
            next = number + 1;
        }
    }
}
