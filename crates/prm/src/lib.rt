// PRM (document 01, "PRM construction", "PRM query" and "Sizes and answers"): a roadmap of valid samples, and queries over it.
#![tactic(auto)]

ghost use Rattle.std.specs.Prelude.{◌≡◌};
ghost use Rattle.prm.specs.Planner.{planner_of, new_of, told_of, setup_of, goals_of, size_of, milestone_of, leg_of};
ghost use Rattle.prm.specs.Construct.{constructed_of, construct_of};
ghost use Rattle.prm.specs.Adding.{add_of};
ghost use Rattle.prm.specs.Query.{queried_of, query_of};

use answer::Answer;
use construct::Built;
use fields::{Goal, Length, Limits};
use keep_out::KeepOut;
use keep_out_table::KeepOuts;
use plan::Setting;
use roadmap::Roadmap;
use state::State;

// What an accepted setup gave, with start and goal as last replaced, and the roadmap that has been built since.
#[derive(Clone, Copy)]
pub struct Prm {
    setting: Setting,
    start: State,
    map: Roadmap,
}

// How a query ended.
#[derive(Clone, Copy)]
pub struct Queried {
    pub answer: Answer,
    // The route's number of states.
    pub count: usize,
}

impl Queried {
    // A refusal writes no route.
    pub fn refused(answer: Answer) -> Queried
        ensures { result ≡ record { answer = answer; count = 0 } }
    {
        Queried { answer, count: 0 }
    }
}

// The generated proofs open these definitions.
#[tactic(auto, using(roadmap::proofs::View::empty_is), unfolding(crate::specs::Planner::planner_of, crate::specs::Planner::setup_of, crate::specs::Planner::goals_of, crate::specs::Planner::size_of, crate::specs::Planner::milestone_of, crate::specs::Planner::leg_of, crate::specs::Construct::construct_of, crate::specs::Adding::add_of, crate::specs::Query::query_of, crate::specs::Query::found_of, plan::specs::Plan::view_of, plan::specs::Setup::setup_with, plan::specs::KeepOut::longer_setting))]
impl Prm {
    // The length that the route buffer of a query needs.
    pub const ROUTE: usize = 771;

    // Uninitialised.
    pub fn new() -> Prm
        ensures { planner_of result ≡ new_of }
    {
        let zero = State {
            az: 0.0,
            el: 0.0,
            feed: 0.0,
        };
        Prm {
            setting: Setting::none(),
            start: zero,
            map: Roadmap::empty(),
        }
    }

    // A refused setup keeps the planner as it was.
    pub fn setup(
        &mut self,
        limits: Limits,
        segment: Length,
        connection_radius: Length,
        start: State,
        goal: Goal,
        table: KeepOuts,
    ) -> Answer
        ensures { told_of self.new result ≡ setup_of (planner_of self.old) limits segment connection_radius start goal table }
    {
        let setting = Setting::new(limits, segment, connection_radius, start, goal, table);
        if !setting.ready {
            return Answer::BadInput;
        }
        *self = Prm {
            setting,
            start,
            map: Roadmap::empty(),
        };
        Answer::Done
    }

    // Builds the roadmap, if it is empty.
    pub fn construct_roadmap(&mut self, samples: &[f64]) -> Built
        ensures { constructed_of self.new result ≡ construct_of (planner_of self.old) samples.now }
    {
        if !self.setting.ready {
            return Built::refused(Answer::Uninitialised);
        }
        if !samples::are_good(samples) {
            return Built::refused(Answer::BadInput);
        }
        let setting = &self.setting;
        construct::construct(&mut self.map, &setting.mount, setting.reach.value, samples)
    }

    // Replaces start and goal; the roadmap stays.
    pub fn replace_goals(&mut self, start: State, goal: Goal) -> Answer
        ensures { told_of self.new result ≡ goals_of (planner_of self.old) start goal }
    {
        if !self.setting.ready {
            return Answer::Uninitialised;
        }
        if !start.is_good() || !goal.is_good() {
            return Answer::BadInput;
        }
        self.start = start;
        self.setting.goal = goal;
        Answer::Done
    }

    // The route from the start to a milestone that satisfies the goal; the planner stays as it is.
    pub fn query(&self, route: &mut [f64]) -> Queried
        ensures { queried_of result route.new ≡ query_of (planner_of self.now) route.old }
    {
        let setting = &self.setting;
        if !setting.ready {
            return Queried::refused(Answer::Uninitialised);
        }
        if route.len() < Prm::ROUTE {
            return Queried::refused(Answer::Room);
        }
        if self.map.size() == 0 {
            return Queried::refused(Answer::Unsampled);
        }
        if !setting.mount.is_valid(self.start) {
            return Queried::refused(Answer::InvalidStart);
        }
        let radius = setting.reach.value;
        let count = search::find_route(
            &setting.mount,
            radius,
            self.start,
            setting.goal,
            &self.map,
            route,
        );
        if count == 0 {
            return Queried::refused(Answer::NoSolution);
        }
        Queried {
            answer: Answer::Done,
            count,
        }
    }

    // Adds a keep-out. What it covers goes: milestones, and legs by their checked points.
    pub fn add_keep_out(&mut self, k: KeepOut) -> Answer
        ensures { told_of self.new result ≡ add_of (planner_of self.old) k }
    {
        if !self.setting.ready {
            return Answer::Uninitialised;
        }
        let answer = self.setting.add_keep_out(k);
        if answer == Answer::Done {
            self.map = prune::pruned(&self.map, k, self.setting.mount.segment.value);
        }
        answer
    }

    // How many milestones there are; none before an accepted setup.
    pub fn size(&self) -> usize
        ensures { result ≡ size_of (planner_of self.now) }
    {
        if !self.setting.ready {
            return 0;
        }
        self.map.size()
    }

    pub fn milestone(&self, i: usize) -> Option<State>
        ensures { result ≡ milestone_of (planner_of self.now) i }
    {
        if !self.setting.ready {
            return None;
        }
        self.map.milestone(i)
    }

    // Whether a leg joins the milestones i and j.
    pub fn has_leg(&self, i: usize, j: usize) -> bool
        ensures { result ≡ leg_of (planner_of self.now) i j }
    {
        self.setting.ready && self.map.has_leg(i, j)
    }
}
