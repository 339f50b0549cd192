// What the planners have in common: the numbers that a setup takes, and when a planner can be used.
#![tactic(auto)]

ghost use Rattle.std.specs.Prelude.{false, ◌≡◌};
ghost use Rattle.plan.specs.Setup.{good_setup, setting_of, usable_of};
ghost use Rattle.keep_out_table.specs.Table.{keep_outs_of};
ghost use Rattle.plan.specs.KeepOut.{longer_of, told_of, more_of, longer_setting};

use answer::Answer;
use fields::{Goal, Length, Limits};
use keep_out::KeepOut;
use keep_out_table::KeepOuts;
use mount::Mount;
use state::State;
use tree::Tree;

// Whether every number of a setup is good. The start need not be valid.
#[tactic(auto, unfolding(crate::specs::Setup::good_setup))]
fn is_good(mount: Mount, reach: Length, start: State, goal: Goal) -> bool
    ensures { result ≡ good_setup mount reach start goal }
{
    mount.is_good() && reach.is_good() && start.is_good() && goal.is_good()
}

// Whether a setup was accepted, and left a tree that a setup can leave.
#[tactic(auto, unfolding(crate::specs::Setup::usable_of))]
pub fn is_usable(ready: bool, count: usize) -> bool
    ensures { result ≡ usable_of ready count }
{
    ready && 0 < count && count <= Tree::MOST
}

// What a setup gave, but for the start and what only one planner takes. Each planner keeps it beside its tables.
#[derive(Clone, Copy)]
pub struct Setting {
    // Whether a setup was accepted.
    pub ready: bool,
    pub mount: Mount,
    // max_distance, or PRM's connection_radius.
    pub reach: Length,
    pub goal: Goal,
}

// What a solve answers.
#[derive(Clone, Copy)]
pub struct Solved {
    pub answer: Answer,
    // The route's number of states.
    pub count: usize,
    // The samples taken.
    pub taken: usize,
}

impl Solved {
    // A refusal takes no sample and writes no route.
    pub fn refused(answer: Answer) -> Solved
        ensures { result ≡ record { answer = answer; count = 0; taken = 0 } }
    {
        Solved {
            answer,
            count: 0,
            taken: 0,
        }
    }
}

impl Setting {
    // Before any setup.
    pub fn none() -> Setting
        ensures { result.ready ≡ false }
    {
        let zero = State {
            az: 0.0,
            el: 0.0,
            feed: 0.0,
        };
        Setting {
            ready: false,
            mount: Mount::none(),
            reach: Length { value: 1.0 },
            goal: Goal {
                centre: zero,
                radius: 0.0,
            },
        }
    }

    // That of a setup on these numbers: ready if all of them are good.
    pub fn new(
        limits: Limits,
        segment: Length,
        reach: Length,
        start: State,
        goal: Goal,
        table: KeepOuts,
    ) -> Setting
        ensures { result ≡ setting_of limits segment reach start goal table }
    {
        let mount = Mount {
            limits,
            segment,
            table,
        };
        Setting {
            ready: is_good(mount, reach, start, goal),
            mount,
            reach,
            goal,
        }
    }

    // The table with one keep-out more, or why there is none. Bad numbers come before the 33rd.
    fn longer(self, k: KeepOut) -> Result<KeepOuts, Answer>
        ensures { told_of self.mount.table result ≡ longer_of (keep_outs_of self.mount.table) k }
    {
        if !k.is_good() {
            return Err(Answer::BadInput);
        }
        self.mount.table.with(k).ok_or(Answer::Full)
    }

    // A refusal keeps the setting.
    #[tactic(auto, unfolding(crate::specs::KeepOut::longer_setting))]
    pub fn add_keep_out(&mut self, k: KeepOut) -> Answer
        ensures { more_of self.new result ≡ longer_setting self.old k }
    {
        match self.longer(k) {
            Ok(table) => {
                self.mount.table = table;
                Answer::Done
            }
            Err(answer) => answer,
        }
    }
}
