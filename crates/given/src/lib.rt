// What the numbers of a script's line, or of a host's setup, stand for. The place is that of the first number.
#![tactic(auto)]

ghost use Rattle.std.specs.Prelude.{◌≡◌, ◌+◌};
ghost use Rattle.given.specs.Given.{number_at, length_at, state_at, goal_at, limits_in, fields_in_of, first_in};

use fields::{Goal, Length, Limits};
use keep_out::KeepOut;
use keep_out_table::KeepOuts;
use state::State;

// What stands past the last number: a NaN, which no call takes.
const NONE: f64 = f64::NAN;

// The number at a place.
pub fn number(numbers: &[f64], i: usize) -> f64
    ensures { result ≡ number_at numbers.now i }
{
    numbers.get(i).copied().unwrap_or(NONE)
}

// The number so many places on. No list is as long as the largest word, so that a sum that is cut to that is past the last number too.
fn number_after(numbers: &[f64], i: usize, by: usize) -> f64
    ensures { result ≡ number_at numbers.now (i + by) }
{
    number(numbers, i.saturating_add(by))
}

#[tactic(auto, unfolding(crate::specs::Given::length_at))]
pub fn length(numbers: &[f64], i: usize) -> Length
    ensures { result ≡ length_at numbers.now i }
{
    Length {
        value: number(numbers, i),
    }
}

#[tactic(auto, unfolding(crate::specs::Given::state_at))]
pub fn state(numbers: &[f64], i: usize) -> State
    ensures { result ≡ state_at numbers.now i }
{
    State {
        az: number(numbers, i),
        el: number_after(numbers, i, 1),
        feed: number_after(numbers, i, 2),
    }
}

#[tactic(auto, unfolding(crate::specs::Given::goal_at))]
pub fn goal(numbers: &[f64], i: usize) -> Goal
    ensures { result ≡ goal_at numbers.now i }
{
    Goal {
        centre: state(numbers, i),
        radius: number_after(numbers, i, 3),
    }
}

// They come first on a line, low then high, per axis.
#[tactic(auto, unfolding(crate::specs::Given::limits_in))]
pub fn limits(numbers: &[f64]) -> Limits
    ensures { result ≡ limits_in numbers.now }
{
    Limits {
        low: State {
            az: number(numbers, 0),
            el: number(numbers, 2),
            feed: number(numbers, 4),
        },
        high: State {
            az: number(numbers, 1),
            el: number(numbers, 3),
            feed: number(numbers, 5),
        },
    }
}

// What the numbers of a setup stand for, in document 01's order. The eighth is the reach of a motion: max_distance, or PRM's connection_radius.
#[derive(Clone, Copy)]
pub struct Fields {
    pub limits: Limits,
    pub segment: Length,
    pub reach: Length,
    pub start: State,
    pub goal: Goal,
}

pub fn fields_in(numbers: &[f64]) -> Fields
    ensures { result ≡ fields_in_of numbers.now }
{
    Fields {
        limits: limits(numbers),
        segment: length(numbers, 6),
        reach: length(numbers, 7),
        start: state(numbers, 8),
        goal: goal(numbers, 11),
    }
}

// The keep-out of a line whose row asks for one: it comes first in the table.
pub fn keep_out(table: &KeepOuts) -> KeepOut
    ensures { result ≡ first_in table.now }
{
    table.slots[0].held
}
