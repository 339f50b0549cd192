// The roadmap of PRM (document 01, "PRM construction"): milestones in a table, and legs as a square of bits.
#![tactic(auto)]

ghost use Rattle.std.specs.Prelude.{◌≡◌, ◌<◌, length, take};
ghost use Rattle.roadmap.specs.Map.{milestone_of, leg_of};
ghost use Rattle.roadmap.specs.View.{milestones_of, empty_of, pushed_of};

use state::State;

// The first count places are the milestones. A count beyond the table reads as its end.
#[derive(Clone, Copy)]
pub struct Roadmap {
    pub milestones: [State; 256],
    pub legs: [u64; 1024],
    pub count: usize,
}

impl Roadmap {
    pub const MOST: usize = 256;

    pub fn empty() -> Roadmap
        ensures { result ≡ empty_of }
    {
        let zero = State {
            az: 0.0,
            el: 0.0,
            feed: 0.0,
        };
        Roadmap {
            milestones: [zero; 256],
            legs: [0; 1024],
            count: 0,
        }
    }

    // The places that hold milestones.
    pub fn held(&self) -> &[State]
        ensures states { result.now ≡ take self.now.count self.now.milestones }
        ensures many { length result.now ≡ length (milestones_of self.now) }
    {
        let count = self.count.min(Roadmap::MOST);
        &self.milestones[..count]
    }

    // How many milestones there are.
    pub fn size(&self) -> usize
        ensures { result ≡ length (milestones_of self.now) }
    {
        self.held().len()
    }

    #[tactic(auto, using(crate::proofs::View::copied_is, crate::proofs::View::milestone_is))]
    pub fn milestone(&self, i: usize) -> Option<State>
        ensures { result ≡ milestone_of (milestones_of self.now) i }
    {
        self.held().get(i).copied()
    }

    // Whether a leg joins i and j. The neighbours of i are the j of which this is true.
    pub fn has_leg(&self, i: usize, j: usize) -> bool
        ensures { result ≡ leg_of (milestones_of self.now) i j }
    {
        let count = self.size();
        i < count && j < count && legs::leg(&self.legs, i, j)
    }

    // One milestone more, in the next place. Its legs are those that stand in its row already.
    pub fn push(&mut self, state: State)
        requires { self.old.count < 256 }
        ensures { self.new ≡ pushed_of self.old state }
    {
        self.milestones[self.count] = state;
        self.count += 1;
    }
}
