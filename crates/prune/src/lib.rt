// What a new keep-out leaves of a roadmap (document 01, "Adding a keep-out"). The new keep-out alone is tested, against the milestones
// and against the checked points of the legs that stand.
#![tactic(auto)]

ghost use Rattle.std.specs.Prelude.{not, ◌&&◌, ◌≡◌, ℕ, ◌<◌, ◌≤◌, length, get_or};
ghost use Rattle.legs.specs.Bits.{leg_at};
ghost use Rattle.state.specs.Rows.{state_at};
ghost use Rattle.roadmap.specs.View.{milestones_of, Joins};
ghost use Rattle.std.specs.List.{list_any, range_with_len};
ghost use Rattle.keep_out.specs.Covers.{covers_of};
ghost use Rattle.motion.specs.Points.{part_way};
ghost use Rattle.prune.specs.Hit.{hit_of};
ghost use Rattle.prune.specs.Prune.{pruned_of};
ghost use Rattle.prune.specs.Numbers.{stayed_of, Numbers};

use keep_out::KeepOut;
use roadmap::Roadmap;
use state::State;

// Whether k covers a checked point of the motion from from to to.
fn hits(k: KeepOut, segment: f64, from: State, to: State) -> bool
    ensures { result ≡ hit_of segment k from to }
{
    let Some(n) = motion::num_steps(segment, from, to) else {
        return false;
    };
    if n <= 1 {
        return k.covers(to);
    }
    meets(k, from, to, n as u32)
}

// The same for a motion of so many steps. They are counted in a u32, which becomes a float in one instruction, where a usize takes six, and in
// a half-open range, since std has its laws for one.
fn meets(k: KeepOut, from: State, to: State, steps: u32) -> bool
    requires { steps ≤ 4096 }
    ensures { result ≡ list_any (λ i. covers_of k (part_way from to steps i)) (range_with_len 1 steps) }
{
    (1..steps + 1).any(|i| k.covers(from.interpolate(to, i as f64 / steps as f64)))
}

// Joins the milestone n, which was the i-th of the map, to the earlier ones that stay, whose leg stood and is not hit. `at` has the new
// numbers of those.
fn keep_legs(
    legs: &mut [u64; 1024],
    map: &Roadmap,
    i: usize,
    at: &[Option<usize>; 256],
    n: usize,
    k: KeepOut,
    segment: f64,
)
    requires { (i < 256) × (n < 256) × (n ≡ length (stayed_of k map.now.milestones i)) × Numbers (stayed_of k map.now.milestones i) at.now i }
    ensures { Joins legs.old n n (λ (j : ℕ). leg_at map.now.legs i (get_or (stayed_of k map.now.milestones i) j 0) && not (hit_of segment k (state_at map.now.milestones i) (state_at map.now.milestones (get_or (stayed_of k map.now.milestones i) j 0)))) legs.new }
{
    let new = map.milestones[i];
    let mut from = 0;
    // No iterator walks the legs of a row: each is asked for from the one before it.
    'stood: while let Some(o) = legs::next(&map.legs, i, from, i) {
        if let Some(j) = at[o] {
            if !hits(k, segment, new, map.milestones[o]) {
                legs::link(legs, n, j);
            }
        }
        from = o + 1;
    }
}

// What k leaves of a roadmap: the milestones that it does not cover, numbered anew, and of the legs between them those that it does
// not hit.
pub fn pruned(map: &Roadmap, k: KeepOut, segment: f64) -> Roadmap
    ensures { milestones_of result ≡ pruned_of segment k (milestones_of map.now) }
{
    let mut left = Roadmap::empty();
    // The new numbers of those that stay.
    let mut at: [Option<usize>; 256] = [None; 256];
    for (i, milestone) in map.held().iter().enumerate() {
        if !k.covers(*milestone) {
            keep_legs(&mut left.legs, map, i, &at, left.count, k, segment);
            at[i] = Some(left.count);
            left.push(*milestone);
        }
    }
    left
}
