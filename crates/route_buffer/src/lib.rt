// The buffer that a route is written into, and what stands in it before a call.
#![tactic(auto)]

ghost use Rattle.std.specs.Prelude.{◌≡◌, take};
ghost use Rattle.route_buffer.specs.Buffer.{fresh_of};

// How many numbers it has.
pub const LENGTH: usize = 4096;

// What stands at each place before a call.
pub const BEFORE: f64 = 7.25;

#[tactic(auto, unfolding(crate::specs::Buffer::fresh_of))]
pub fn fresh() -> [f64; LENGTH]
    ensures { result ≡ fresh_of }
{
    [BEFORE; LENGTH]
}

// The first so many numbers, or all where there are fewer.
pub fn first(buffer: &mut [f64], capacity: usize) -> &mut [f64]
    ensures { result.now ≡ take capacity buffer.old }
{
    let count = capacity.min(buffer.len());
    &mut buffer[..count]
}
