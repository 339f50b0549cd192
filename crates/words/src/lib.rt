// The words of standard input, and the number that a word is.
#![tactic(auto)]

pub mod number;
pub mod word;
