// RRT* (document 01, "RRT*" and "Sizes and answers"): RRT whose new node takes the parent that costs least, and then draws its neighbours
// under itself where that costs less.
#![tactic(auto)]

ghost use Rattle.std.specs.Prelude.{◌≡◌};
ghost use Rattle.plan.specs.Setup.{usable_of};
ghost use Rattle.plan.specs.Solve.{outcome_of};
ghost use Rattle.rrt_star.specs.Planner.{planner_of, new_of, told_of, setup_of, add_of, size_of, node_of, cost_of};
ghost use Rattle.rrt_star.specs.Solve.{solve_of};

use answer::Answer;
use fields::{Goal, Length, Limits};
use keep_out::KeepOut;
use keep_out_table::KeepOuts;
use plan::{Setting, Solved};
use state::State;
use tree::{NodeAt, Tree};

// What an accepted setup gave, the tree that has grown since, and what each node costs.
#[derive(Clone, Copy)]
pub struct RrtStar {
    setting: Setting,
    search_radius: Length,
    tree: Tree,
    cost: [f64; 512],
}

impl RrtStar {
    // The length that the route buffer of a solve needs.
    pub const ROUTE: usize = 1536;

    // Uninitialised.
    pub fn new() -> RrtStar
        ensures { planner_of result ≡ new_of }
    {
        RrtStar {
            setting: Setting::none(),
            search_radius: Length { value: 1.0 },
            tree: Tree::none(),
            cost: [0.0; 512],
        }
    }

    fn is_usable(&self) -> bool
        ensures { result ≡ usable_of self.now.setting.ready self.now.tree.count }
    {
        plan::is_usable(self.setting.ready, self.tree.count)
    }

    // A refused setup keeps the planner as it was.
    pub fn setup(
        &mut self,
        limits: Limits,
        segment: Length,
        max_distance: Length,
        search_radius: Length,
        start: State,
        goal: Goal,
        table: KeepOuts,
    ) -> Answer
        ensures { told_of self.new result ≡ setup_of (planner_of self.old) limits segment max_distance search_radius start goal table }
    {
        let setting = Setting::new(limits, segment, max_distance, start, goal, table);
        if !setting.ready || !search_radius.is_good() {
            return Answer::BadInput;
        }
        self.setting = setting;
        self.search_radius = search_radius;
        self.tree = Tree::rooted(start);
        self.cost = [0.0; 512];
        Answer::Done
    }

    // A further solve goes on with the same tree.
    pub fn solve(&mut self, samples: &[f64], route: &mut [f64]) -> Solved
        ensures { outcome_of (planner_of self.new) result route.new ≡ solve_of (planner_of self.old) samples.now route.old }
    {
        if !self.is_usable() {
            return Solved::refused(Answer::Uninitialised);
        }
        if route.len() < RrtStar::ROUTE {
            return Solved::refused(Answer::Room);
        }
        if !samples::are_good(samples) {
            return Solved::refused(Answer::BadInput);
        }
        star_run::run(
            &mut self.tree,
            &mut self.cost,
            &self.setting.mount,
            self.setting.reach,
            self.search_radius,
            self.setting.goal,
            samples,
            route,
        )
    }

    // Adds a keep-out for the motions to come; what has grown stays.
    pub fn add_keep_out(&mut self, k: KeepOut) -> Answer
        ensures { told_of self.new result ≡ add_of (planner_of self.old) k }
    {
        if !self.is_usable() {
            return Answer::Uninitialised;
        }
        self.setting.add_keep_out(k)
    }

    // How many nodes the tree has; none before an accepted setup.
    pub fn size(&self) -> usize
        ensures { result ≡ size_of (planner_of self.now) }
    {
        if !self.is_usable() {
            return 0;
        }
        self.tree.len()
    }

    #[tactic(auto, using(crate::proofs::Views::node_set, crate::proofs::Views::node_unset))]
    pub fn node(&self, i: usize) -> Option<NodeAt>
        ensures { result ≡ node_of (planner_of self.now) i }
    {
        if !self.is_usable() {
            return None;
        }
        self.tree.node_at(i)
    }

    // What the node i costs.
    pub fn cost(&self, i: usize) -> Option<f64>
        ensures { result ≡ cost_of (planner_of self.now) i }
    {
        if !self.is_usable() || self.tree.len() <= i {
            return None;
        }
        Some(self.cost[i])
    }
}
