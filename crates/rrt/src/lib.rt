// RRT (document 01, "RRT" and "Sizes and answers"): one tree from the start, a sample at a time, until a new node satisfies the goal.
#![tactic(auto)]

ghost use Rattle.std.specs.Prelude.{◌≡◌};
ghost use Rattle.plan.specs.Setup.{usable_of};
ghost use Rattle.plan.specs.Solve.{outcome_of};
ghost use Rattle.rrt.specs.Planner.{planner_of, new_of, told_of, setup_of, add_of, size_of, node_of};
ghost use Rattle.rrt.specs.Solve.{solve_of};

use answer::Answer;
use fields::{Goal, Length, Limits};
use keep_out::KeepOut;
use keep_out_table::KeepOuts;
use plan::{Setting, Solved};
use state::State;
use tree::{NodeAt, Tree};

// What an accepted setup gave, and the tree that has grown since.
#[derive(Clone, Copy)]
pub struct Rrt {
    setting: Setting,
    tree: Tree,
}

impl Rrt {
    // The length that the route buffer of a solve needs.
    pub const ROUTE: usize = 1536;

    // Uninitialised.
    pub fn new() -> Rrt
        ensures { planner_of result ≡ new_of }
    {
        Rrt {
            setting: Setting::none(),
            tree: Tree::none(),
        }
    }

    fn is_usable(&self) -> bool
        ensures { result ≡ usable_of self.now.setting.ready self.now.tree.count }
    {
        plan::is_usable(self.setting.ready, self.tree.count)
    }

    // A refused setup keeps the planner as it was.
    pub fn setup(
        &mut self,
        limits: Limits,
        segment: Length,
        max_distance: Length,
        start: State,
        goal: Goal,
        table: KeepOuts,
    ) -> Answer
        ensures { told_of self.new result ≡ setup_of (planner_of self.old) limits segment max_distance start goal table }
    {
        let setting = Setting::new(limits, segment, max_distance, start, goal, table);
        if !setting.ready {
            return Answer::BadInput;
        }
        self.setting = setting;
        self.tree = Tree::rooted(start);
        Answer::Done
    }

    // A further solve goes on with the same tree.
    pub fn solve(&mut self, samples: &[f64], route: &mut [f64]) -> Solved
        ensures { outcome_of (planner_of self.new) result route.new ≡ solve_of (planner_of self.old) samples.now route.old }
    {
        if !self.is_usable() {
            return Solved::refused(Answer::Uninitialised);
        }
        if route.len() < Rrt::ROUTE {
            return Solved::refused(Answer::Room);
        }
        if !samples::are_good(samples) {
            return Solved::refused(Answer::BadInput);
        }
        let setting = self.setting;
        rrt_run::run(
            &mut self.tree,
            &setting.mount,
            setting.reach,
            setting.goal,
            samples,
            route,
        )
    }

    // Adds a keep-out for the motions to come; what has grown stays.
    pub fn add_keep_out(&mut self, k: KeepOut) -> Answer
        ensures { told_of self.new result ≡ add_of (planner_of self.old) k }
    {
        if !self.is_usable() {
            return Answer::Uninitialised;
        }
        self.setting.add_keep_out(k)
    }

    // How many nodes the tree has; none before an accepted setup.
    pub fn size(&self) -> usize
        ensures { result ≡ size_of (planner_of self.now) }
    {
        if !self.is_usable() {
            return 0;
        }
        self.tree.len()
    }

    #[tactic(auto, using(crate::proofs::Views::node_set, crate::proofs::Views::node_unset))]
    pub fn node(&self, i: usize) -> Option<NodeAt>
        ensures { result ≡ node_of (planner_of self.now) i }
    {
        if !self.is_usable() {
            return None;
        }
        self.tree.node_at(i)
    }
}
