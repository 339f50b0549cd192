// What a call left in the buffer that a route is written into.
use crate::Out;
use state::State;

// The states of a route, a line each.
fn states(out: &mut Out, numbers: &[f64]) {
    let (states, _) = numbers.as_chunks::<3>();
    for &[az, el, feed] in states {
        out.text(b"  ");
        out.state(State { az, el, feed });
        out.byte(b'\n');
    }
}

// Whether each number is as it was before the call.
fn is_kept(numbers: &[f64]) -> bool {
    numbers.iter().all(|x| *x == route_buffer::BEFORE)
}

// The states of the route that a call left, so many or as many as the buffer has room for, and whether it kept the rest.
pub fn write(out: &mut Out, route: &[f64], count: usize) {
    let (written, kept) = route.split_at(route.len().min(count.saturating_mul(3)));
    states(out, written);
    if !is_kept(kept) {
        out.text(b"! buffer\n");
    }
}
