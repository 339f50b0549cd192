// The search of a PRM query (document 01, "PRM query"): breadth first over a roadmap from the milestones that the start reaches, and the
// route to the first one taken from the queue that satisfies the goal.
#![tactic(auto)]

ghost use Rattle.std.specs.Prelude.{◌≡◌, ◌+◌, ◌≤◌, ◌<◌, length};
ghost use Rattle.keep_out_table.specs.Table.{keep_outs_of};
ghost use Rattle.state.specs.Rows.{state_at};
ghost use Rattle.roadmap.specs.View.{milestones_of};
ghost use Rattle.route.specs.Path.{path_of};
ghost use Rattle.search.specs.Search.{neighbours_of, search_of};
ghost use Rattle.search.specs.Query.{goal_of, Numbers, Sought, states_of, tree_of, query_of, Routed};

use fields::Goal;
use mount::Mount;
use queue::Queue;
use roadmap::Roadmap;
use state::State;
use tree::Tree;

// Writes the route to a place of the queue, and returns how many states it has. The queue is a tree under the start.
#[tactic(auto, using(queue::proofs::Tables::held_few))]
fn write(
    start: State,
    milestones: &[State],
    queue: &Queue,
    place: usize,
    route: &mut [f64],
) -> usize
    requires { (place < length queue.now) × Numbers (length milestones.now) queue.now × (771 ≤ length route.old) }
    ensures { Routed (path_of (tree_of start (state_at milestones.now) queue.now) (place + 1)) route.old result route.new }
{
    let mut tree = Tree::rooted(start);
    // A place stands in two tables, so places are counted.
    for k in 0..queue.count {
        tree.push(milestones[queue.order[k]], queue.from[k]);
    }
    route::reconstruct_path(&tree, place + 1, route)
}

// The states of a roadmap's milestones, in order. They are a part of the table here, so that its length is known to reach that far.
#[tactic(auto, using(crate::proofs::Milestones::states_few, crate::proofs::Milestones::states_are))]
fn states(map: &Roadmap) -> &[State]
    ensures { result.now ≡ states_of (milestones_of map.now) }
{
    &map.milestones[..map.size()]
}

// Takes the milestones from the queue in turn, and returns the place of the first that satisfies the goal. Each before it queues its
// neighbours.
#[tactic(auto, using(queue::proofs::Tables::held_few))]
fn seek(goal: Goal, map: &Roadmap, queue: &mut Queue) -> Option<usize>
    requires { Numbers (length (milestones_of map.now)) queue.old }
    ensures { let ms = milestones_of map.now in Sought (search_of 256 (goal_of goal ms) (neighbours_of ms) queue.old 0) (length ms) queue.new result }
{
    let milestones = states(map);
    let mut place = 0;
    // The queue grows while it is walked.
    'places: while place < queue.count {
        let number = queue.order[place];
        let taken = milestones[number];
        if goal.is_satisfied(taken) {
            return Some(place);
        }
        queue.spread(&map.legs, number, milestones.len(), place + 1);
        place += 1;
    }
    None
}

// Writes the route from the start to a milestone that satisfies the goal, and returns how many states it has; 0 where there is none.
pub fn find_route(
    mount: &Mount,
    radius: f64,
    start: State,
    goal: Goal,
    map: &Roadmap,
    route: &mut [f64],
) -> usize
    requires { 771 ≤ length route.old }
    ensures { Routed (query_of mount.now.limits mount.now.segment.value (keep_outs_of mount.now.table) radius start goal (milestones_of map.now)) route.old result route.new }
{
    let milestones = states(map);
    let mut queue = Queue::new();
    queue.connect(mount, radius, start, milestones);
    match seek(goal, map, &mut queue) {
        Some(place) => write(start, milestones, &queue, place, route),
        None => 0,
    }
}
