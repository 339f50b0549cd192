// What a planner's call answered.
use crate::{Out, routes};
use answer::Answer;

// The answer's number, the count of states and the samples taken.
pub fn answer(out: &mut Out, answer: Answer, count: usize, taken: usize) {
    out.number(usize::from(answer));
    out.byte(b' ');
    out.number(count);
    out.byte(b' ');
    out.number(taken);
}

// The answer of a call that gives no route.
pub fn answered(out: &mut Out, reply: Answer, taken: usize) {
    out.text(b"= ");
    answer(out, reply, 0, taken);
    out.byte(b'\n');
    out.flush();
}

// The answer of a call that may give a route, with what it left in the route buffer.
pub fn routed(out: &mut Out, reply: Answer, count: usize, taken: usize, route: &[f64]) {
    out.text(b"= ");
    answer(out, reply, count, taken);
    out.byte(b'\n');
    routes::write(out, route, count);
    out.flush();
}
