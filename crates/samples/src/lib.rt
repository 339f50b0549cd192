// Lists of samples: plain numbers, three to a state (document 01, "Sizes and answers").
#![tactic(auto)]

ghost use Rattle.std.specs.Prelude.{◌≡◌, length};
ghost use Rattle.std.specs.List.{list_all};
ghost use Rattle.state.specs.Ranges.{coordinate_of};
ghost use Rattle.samples.specs.Samples.{good_samples, sample_of};

use state::State;

// Whether the list may be used: a length that is a multiple of 3, and coordinates alone.
#[tactic(auto, unfolding(crate::specs::Samples::good_samples))]
pub fn are_good(list: &[f64]) -> bool
    ensures { result ≡ good_samples list.now }
{
    list.len() % 3 == 0 && are_coordinates(list)
}

fn are_coordinates(list: &[f64]) -> bool
    ensures { result ≡ list_all coordinate_of list.now }
{
    list.iter().all(|&x| State::is_coordinate(x))
}

// The state of three numbers. A run goes over a list's samples with `chunks_exact(3)`.
pub fn state(sample: &[f64]) -> State
    requires { length sample.now ≡ 3 }
    ensures { result ≡ sample_of sample.now }
{
    State {
        az: sample[0],
        el: sample[1],
        feed: sample[2],
    }
}
