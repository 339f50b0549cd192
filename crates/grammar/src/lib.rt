// The rows of the table of calls: which words a line starts with, and what follows them. A new call is a verb and its row.
#![tactic(auto)]

ghost use Rattle.std.specs.Prelude.{◌≡◌};
ghost use Rattle.grammar.specs.Rows.{setup_row, numbers_row, list_row, keep_out_row, mount_row, tree_row, prm_row, row_of};
ghost use Rattle.grammar.specs.Words.{value_in, planner_named, verb_named};

#[derive(Clone, Copy)]
pub enum Planner {
    Mount,
    Rrt,
    Connect,
    Star,
    Prm,
}

#[derive(Clone, Copy)]
pub enum Verb {
    Setup,
    Keepout,
    Solve,
    Construct,
    Goals,
    Query,
    Tables,
    Distance,
    Between,
    Steer,
    Valid,
    Steps,
    Motion,
}

// How many numbers a line has, its capacity not counted.
#[derive(Clone, Copy)]
pub enum Numbers {
    Exactly(usize),
    Any,
}

// What follows the two words of a call: a capacity or none, numbers, and keep-outs.
#[derive(Clone, Copy)]
pub struct Row {
    pub has_capacity: bool,
    pub numbers: Numbers,
    pub least_keep_outs: usize,
    pub most_keep_outs: usize,
}

impl Row {
    // The most keep-outs that a line may have. A table takes fewer, so a call can be made that has too many for it.
    const MOST_KEEP_OUTS: usize = 40;

    // Limits, a segment length and what the planner has more of numbers, and any keep-outs.
    fn setup(numbers: usize) -> Row
        ensures { result ≡ setup_row numbers }
    {
        Row {
            has_capacity: false,
            numbers: Numbers::Exactly(numbers),
            least_keep_outs: 0,
            most_keep_outs: Row::MOST_KEEP_OUTS,
        }
    }

    fn of_numbers(numbers: usize) -> Row
        ensures { result ≡ numbers_row numbers }
    {
        Row {
            has_capacity: false,
            numbers: Numbers::Exactly(numbers),
            least_keep_outs: 0,
            most_keep_outs: 0,
        }
    }

    fn of_list(has_capacity: bool, numbers: Numbers) -> Row
        ensures { result ≡ list_row has_capacity numbers }
    {
        Row {
            has_capacity,
            numbers,
            least_keep_outs: 0,
            most_keep_outs: 0,
        }
    }

    fn of_keep_out() -> Row
        ensures { result ≡ keep_out_row }
    {
        Row {
            has_capacity: false,
            numbers: Numbers::Exactly(0),
            least_keep_outs: 1,
            most_keep_outs: 1,
        }
    }

    // None where the planner has no such call.
    #[tactic(auto, unfolding(crate::specs::Rows::row_of))]
    pub fn of(planner: Planner, verb: Verb) -> Option<Row>
        ensures { result ≡ row_of planner verb }
    {
        match planner {
            Planner::Mount => Row::of_mount(verb),
            Planner::Rrt | Planner::Connect => Row::of_tree(verb, 15),
            Planner::Star => Row::of_tree(verb, 16),
            Planner::Prm => Row::of_prm(verb),
        }
    }

    #[tactic(auto, unfolding(crate::specs::Rows::mount_row))]
    fn of_mount(verb: Verb) -> Option<Row>
        ensures { result ≡ mount_row verb }
    {
        match verb {
            Verb::Setup => Some(Row::setup(7)),
            Verb::Distance | Verb::Steps | Verb::Motion => Some(Row::of_numbers(6)),
            Verb::Between | Verb::Steer => Some(Row::of_numbers(7)),
            Verb::Valid => Some(Row::of_numbers(3)),
            _ => None,
        }
    }

    #[tactic(auto, unfolding(crate::specs::Rows::tree_row))]
    fn of_tree(verb: Verb, numbers: usize) -> Option<Row>
        ensures { result ≡ tree_row numbers verb }
    {
        match verb {
            Verb::Setup => Some(Row::setup(numbers)),
            Verb::Keepout => Some(Row::of_keep_out()),
            Verb::Solve => Some(Row::of_list(true, Numbers::Any)),
            Verb::Tables => Some(Row::of_numbers(0)),
            _ => None,
        }
    }

    #[tactic(auto, unfolding(crate::specs::Rows::prm_row))]
    fn of_prm(verb: Verb) -> Option<Row>
        ensures { result ≡ prm_row verb }
    {
        match verb {
            Verb::Setup => Some(Row::setup(15)),
            Verb::Keepout => Some(Row::of_keep_out()),
            Verb::Construct => Some(Row::of_list(false, Numbers::Any)),
            Verb::Goals => Some(Row::of_numbers(7)),
            Verb::Query => Some(Row::of_list(true, Numbers::Exactly(0))),
            Verb::Tables => Some(Row::of_numbers(0)),
            _ => None,
        }
    }
}

// The words that name a planner.
const PLANNERS: [(&[u8], Planner); 5] = [
    (b"mount", Planner::Mount),
    (b"rrt", Planner::Rrt),
    (b"connect", Planner::Connect),
    (b"star", Planner::Star),
    (b"prm", Planner::Prm),
];

// The words that name a verb.
const VERBS: [(&[u8], Verb); 13] = [
    (b"setup", Verb::Setup),
    (b"keepout", Verb::Keepout),
    (b"solve", Verb::Solve),
    (b"construct", Verb::Construct),
    (b"goals", Verb::Goals),
    (b"query", Verb::Query),
    (b"tables", Verb::Tables),
    (b"distance", Verb::Distance),
    (b"between", Verb::Between),
    (b"steer", Verb::Steer),
    (b"valid", Verb::Valid),
    (b"steps", Verb::Steps),
    (b"motion", Verb::Motion),
];

// What the first of the rows with that word names.
pub fn named<T: Copy>(word: &[u8], rows: &[(&[u8], T)]) -> Option<T>
    ensures { result ≡ value_in word.now rows.now }
{
    for (name, value) in rows {
        if word == *name {
            return Some(*value);
        }
    }
    None
}

pub fn planner_of(word: &[u8]) -> Option<Planner>
    ensures { result ≡ planner_named word.now }
{
    named(word, &PLANNERS)
}

pub fn verb_of(word: &[u8]) -> Option<Verb>
    ensures { result ≡ verb_named word.now }
{
    named(word, &VERBS)
}
