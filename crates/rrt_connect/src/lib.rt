// RRT-Connect (document 01, "RRT-Connect" and "Sizes and answers"): two trees, from the start and from the first sample, that grow
// toward each other.
#![tactic(auto)]

ghost use Rattle.std.specs.Prelude.{◌≡◌};
ghost use Rattle.plan.specs.Solve.{outcome_of};
ghost use Rattle.rrt_connect.specs.Planner.{usable_of, planner_of, new_of, told_of, setup_of, add_of, start_size_of, goal_size_of, start_node_of, goal_node_of};
ghost use Rattle.rrt_connect.specs.Solve.{solve_of};

use answer::Answer;
use fields::{Goal, Length, Limits};
use keep_out::KeepOut;
use keep_out_table::KeepOuts;
use plan::{Setting, Solved};
use state::State;
use tree::{NodeAt, Tree};

// What an accepted setup gave, and the trees that have grown since.
#[derive(Clone, Copy)]
pub struct RrtConnect {
    setting: Setting,
    start_tree: Tree,
    goal_tree: Tree,
}

// The generated proofs open these definitions.
#[tactic(auto, unfolding(crate::specs::Planner::usable_of, crate::specs::Planner::planner_of, crate::specs::Planner::setup_of, crate::specs::Planner::add_of, crate::specs::Planner::start_size_of, crate::specs::Planner::goal_size_of, crate::specs::Planner::start_node_of, crate::specs::Planner::goal_node_of, crate::specs::Solve::solve_of, plan::specs::Plan::view_of, plan::specs::Setup::usable_of, plan::specs::Setup::setup_with, plan::specs::Solve::solve_with, plan::specs::Solve::ended_of, plan::specs::KeepOut::add_with, plan::specs::KeepOut::longer_setting, tree::specs::Table::nodes_of, tree::specs::Table::nodes_in, tree::specs::Table::root_of, tree::specs::Table::rooted_of, tree::specs::Table::none_of))]
impl RrtConnect {
    // The length that the route buffer of a solve needs.
    pub const ROUTE: usize = 3069;

    // Uninitialised.
    pub fn new() -> RrtConnect
        ensures { planner_of result ≡ new_of }
    {
        RrtConnect {
            setting: Setting::none(),
            start_tree: Tree::none(),
            goal_tree: Tree::none(),
        }
    }

    // Whether a setup was accepted, and left trees that a setup can leave.
    fn is_usable(&self) -> bool
        ensures { result ≡ usable_of self.now.setting.ready self.now.start_tree.count self.now.goal_tree.count }
    {
        plan::is_usable(self.setting.ready, self.start_tree.count)
            && self.goal_tree.count <= Tree::MOST
    }

    // A refused setup keeps the planner as it was.
    pub fn setup(
        &mut self,
        limits: Limits,
        segment: Length,
        max_distance: Length,
        start: State,
        goal: Goal,
        table: KeepOuts,
    ) -> Answer
        ensures { told_of self.new result ≡ setup_of (planner_of self.old) limits segment max_distance start goal table }
    {
        let setting = Setting::new(limits, segment, max_distance, start, goal, table);
        if !setting.ready {
            return Answer::BadInput;
        }
        self.setting = setting;
        self.start_tree = Tree::rooted(start);
        self.goal_tree = Tree::none();
        Answer::Done
    }

    // A further solve goes on with the same trees.
    pub fn solve(&mut self, samples: &[f64], route: &mut [f64]) -> Solved
        ensures { outcome_of (planner_of self.new) result route.new ≡ solve_of (planner_of self.old) samples.now route.old }
    {
        if !self.is_usable() {
            return Solved::refused(Answer::Uninitialised);
        }
        if route.len() < RrtConnect::ROUTE {
            return Solved::refused(Answer::Room);
        }
        if !samples::are_good(samples) {
            return Solved::refused(Answer::BadInput);
        }
        connect_run::run(
            &mut self.start_tree,
            &mut self.goal_tree,
            &self.setting.mount,
            self.setting.reach,
            self.setting.goal,
            samples,
            route,
        )
    }

    // Adds a keep-out for the motions to come; what has grown stays.
    pub fn add_keep_out(&mut self, k: KeepOut) -> Answer
        ensures { told_of self.new result ≡ add_of (planner_of self.old) k }
    {
        if !self.is_usable() {
            return Answer::Uninitialised;
        }
        self.setting.add_keep_out(k)
    }

    // How many nodes the trees have; none before an accepted setup.
    pub fn start_size(&self) -> usize
        ensures { result ≡ start_size_of (planner_of self.now) }
    {
        if !self.is_usable() {
            return 0;
        }
        self.start_tree.len()
    }

    pub fn goal_size(&self) -> usize
        ensures { result ≡ goal_size_of (planner_of self.now) }
    {
        if !self.is_usable() {
            return 0;
        }
        self.goal_tree.len()
    }

    pub fn start_node(&self, i: usize) -> Option<NodeAt>
        ensures { result ≡ start_node_of (planner_of self.now) i }
    {
        if !self.is_usable() {
            return None;
        }
        self.start_tree.node_at(i)
    }

    pub fn goal_node(&self, i: usize) -> Option<NodeAt>
        ensures { result ≡ goal_node_of (planner_of self.now) i }
    {
        if !self.is_usable() {
            return None;
        }
        self.goal_tree.node_at(i)
    }
}
