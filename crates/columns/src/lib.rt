// A host's keep-outs as two columns of plain numbers: to a row the number of a kind (0 box, 1 disc, 2 floor), and six numbers, of which a disc
// uses three and a floor one.
#![tactic(auto)]

ghost use Rattle.std.specs.Prelude.{◌≡◌, ◌<◌};
ghost use Rattle.columns.specs.Rows.{keep_out_at_of};

use keep_out::KeepOut;
use state::State;

// The keep-out that stands in row j.
#[tactic(auto, unfolding(crate::specs::Rows::keep_out_at_of))]
pub fn keep_out_at(kinds: &[u8; 32], numbers: &[f64; 192], j: usize) -> KeepOut
    requires { j < 32 }
    ensures { result ≡ keep_out_at_of kinds.now numbers.now j }
{
    let at = 6 * j;
    match kinds[j] {
        0 => KeepOut::Box {
            low: State {
                az: numbers[at],
                el: numbers[at + 1],
                feed: numbers[at + 2],
            },
            high: State {
                az: numbers[at + 3],
                el: numbers[at + 4],
                feed: numbers[at + 5],
            },
        },
        1 => KeepOut::Disc {
            az: numbers[at],
            el: numbers[at + 1],
            radius: numbers[at + 2],
        },
        _ => KeepOut::Floor(numbers[at]),
    }
}
