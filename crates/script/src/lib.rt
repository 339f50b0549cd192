// A line of a script as a call.
#![tactic(auto)]

mod keep_outs;
mod line;
mod numbers;

pub use line::{Line, NoCall, read};
