// Keep-outs as a host lists them, a kind and six numbers to a row: whether the kinds are known, and the rows as a table.
#![tactic(auto)]

ghost use Rattle.std.specs.Prelude.{◌≡◌, ◌+◌};
ghost use Rattle.listing.specs.Table.{Listed, known_of};

use keep_out_table::{KeepOuts, Slot};

// The last of the kinds: 0 is a box, 1 a disc, 2 a floor.
const LAST_KIND: u8 = 2;

// Whether each of the first count kinds is one of the three.
#[tactic(auto, unfolding(crate::specs::Table::known_of))]
pub fn are_known(kinds: &[u8; 32], count: usize) -> bool
    ensures { result ≡ known_of kinds.now count }
{
    let rows = count.min(KeepOuts::MOST);
    kinds[..rows].iter().all(|&kind| kind <= LAST_KIND)
}

// The same of the first count rows and the next `added`. A sum that is cut to the largest word is past the rows too.
#[tactic(auto, unfolding(crate::specs::Table::known_of))]
pub fn are_known_with(kinds: &[u8; 32], count: usize, added: usize) -> bool
    ensures { result ≡ known_of kinds.now (count + added) }
{
    are_known(kinds, count.saturating_add(added))
}

// The table of the first count rows, in the form of `columns`: a kind and six numbers to a row.
pub fn table_of(kinds: &[u8; 32], numbers: &[f64; 192], count: usize) -> KeepOuts
    ensures { Listed kinds.now numbers.now count result }
{
    let rows = count.min(KeepOuts::MOST);
    let mut table = KeepOuts::new();
    for row in 0..rows {
        let held = columns::keep_out_at(kinds, numbers, row);
        table.slots[row] = Slot { held };
    }
    table.count = count;
    table
}
