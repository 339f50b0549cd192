// The calls on the mount alone: its setup, and the six calls on states. The mount of the last accepted setup is kept, if there was one.
#![tactic(auto)]

ghost use Rattle.std.specs.Prelude.{◌≡◌};
ghost use Rattle.mount_calls.specs.None.{none_of};
ghost use Rattle.mount_calls.specs.Kept.{setup_from, call_of};

use answer::Answer;
use grammar::Verb;
use keep_out_table::KeepOuts;
use mount::Mount;
use output::{Out, replies};
use state::State;

// What a call answered: one of document 01's answers, or what the call is for.
#[derive(Clone, Copy)]
enum Reply {
    Answered(Answer),
    Number(f64),
    Place(State),
    Truth(bool),
    // A number of steps; none where they are too many.
    Steps(Option<usize>),
}

// Before any setup.
pub fn none() -> Option<Mount>
    ensures { result ≡ none_of }
{
    None
}

// A setup that is refused keeps the former mount.
#[tactic(auto, unfolding(crate::specs::Kept::setup_from))]
fn setup(kept: &mut Option<Mount>, numbers: &[f64], table: KeepOuts) -> Answer
    ensures { kept.new ≡ setup_from kept.old numbers.now table }
{
    let mount = Mount {
        limits: given::limits(numbers),
        segment: given::length(numbers, 6),
        table,
    };
    if !mount.is_good() {
        return Answer::BadInput;
    }
    *kept = Some(mount);
    Answer::Done
}

// A call on states: not set up comes before bad numbers.
fn leaf(kept: &Option<Mount>, verb: Verb, numbers: &[f64]) -> Reply {
    let Some(mount) = kept else {
        return Reply::Answered(Answer::Uninitialised);
    };
    let reply = match verb {
        Verb::Between => between(numbers),
        Verb::Steer => steer(numbers),
        Verb::Valid => valid(mount, numbers),
        _ => of_two(mount, verb, numbers),
    };
    reply.unwrap_or(Reply::Answered(Answer::BadInput))
}

// What a call is for; none where a number is bad.
fn between(numbers: &[f64]) -> Option<Reply> {
    let from = given::state(numbers, 0);
    let to = given::state(numbers, 3);
    let t = given::number(numbers, 6);
    let is_good = from.is_good() && to.is_good() && state::inside(0.0, 1.0, t);
    is_good.then(|| Reply::Place(from.interpolate(to, t)))
}

fn steer(numbers: &[f64]) -> Option<Reply> {
    let most = given::length(numbers, 0);
    let from = given::state(numbers, 1);
    let sample = given::state(numbers, 4);
    let is_good = from.is_good() && sample.is_good() && most.is_good();
    is_good.then(|| Reply::Place(from.steer(sample, most.value)))
}

fn valid(mount: &Mount, numbers: &[f64]) -> Option<Reply> {
    let s = given::state(numbers, 0);
    s.is_good().then(|| Reply::Truth(mount.is_valid(s)))
}

// The calls on two states and nothing else.
fn of_two(mount: &Mount, verb: Verb, numbers: &[f64]) -> Option<Reply> {
    let from = given::state(numbers, 0);
    let to = given::state(numbers, 3);
    let is_good = from.is_good() && to.is_good();
    is_good.then(|| match verb {
        Verb::Steps => Reply::Steps(mount.steps(from, to)),
        Verb::Motion => Reply::Truth(mount.check_motion(from, to)),
        _ => Reply::Number(from.distance(to)),
    })
}

// The line of a reply.
fn write(out: &mut Out, reply: Reply) {
    out.text(b"= ");
    match reply {
        Reply::Answered(answer) => replies::answer(out, answer, 0, 0),
        Reply::Number(x) => out.float(x),
        Reply::Place(s) => out.state(s),
        Reply::Truth(true) => out.text(b"yes"),
        Reply::Truth(false) => out.text(b"no"),
        Reply::Steps(Some(n)) => out.number(n),
        Reply::Steps(None) => out.text(b"many"),
    }
    out.byte(b'\n');
    out.flush();
}

// What a call answers. A setup may replace the mount, and everything else keeps it.
#[tactic(auto, unfolding(crate::specs::Kept::call_of))]
fn answer(kept: &mut Option<Mount>, verb: Verb, numbers: &[f64], table: KeepOuts) -> Reply
    ensures { kept.new ≡ call_of kept.old verb numbers.now table }
{
    match verb {
        Verb::Setup => Reply::Answered(setup(kept, numbers, table)),
        _ => leaf(kept, verb, numbers),
    }
}

// Makes a call and writes what it answers.
pub fn call(out: &mut Out, kept: &mut Option<Mount>, verb: Verb, numbers: &[f64], table: KeepOuts)
    ensures { kept.new ≡ call_of kept.old verb numbers.now table }
{
    let reply = answer(kept, verb, numbers, table);
    write(out, reply);
}
