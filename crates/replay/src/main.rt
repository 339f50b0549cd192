// Reads a script of calls from standard input, makes each call, and writes what it answered. One call a line; at the first line
// that is no call it says so and stops.
#![tactic(auto)]

mod calls;

use input::Reader;
use output::Out;

fn main(rt: HostRuntime) {
    let mut reader = Reader::new(rt.stdin());
    let mut out = Out::new(rt.stdout());
    // The most numbers that a line may have.
    let mut space = [0.0f64; 24576];
    calls::run(&mut reader, &mut out, &mut space);
}
