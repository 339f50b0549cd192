// The table of at most 32 keep-outs (document 01, "The mount").
#![tactic(auto)]

ghost use Rattle.std.specs.Prelude.{◌≡◌, map, take, min};
ghost use Rattle.std.specs.List.{list_all, list_any};
ghost use Rattle.keep_out.specs.Good.{good_keep_out};
ghost use Rattle.keep_out.specs.Covers.{covers_of, covered_of};
ghost use Rattle.keep_out_table.specs.Table.{keep_outs_of, empty_table, with_of};
ghost use Rattle.keep_out_table.specs.Good.{good_table};

use keep_out::KeepOut;
use state::State;

// A place of the table.
#[derive(Clone, Copy)]
pub struct Slot {
    pub held: KeepOut,
}

// The first count places hold the keep-outs, in the order in which they were added. A count beyond the table reads as its end.
#[derive(Clone, Copy)]
pub struct KeepOuts {
    pub slots: [Slot; 32],
    pub count: usize,
}

impl KeepOuts {
    pub const MOST: usize = 32;

    pub fn new() -> KeepOuts
        ensures { result ≡ empty_table }
    {
        let slot = Slot {
            held: KeepOut::Floor(0.0),
        };
        KeepOuts {
            slots: [slot; 32],
            count: 0,
        }
    }

    // The places that hold keep-outs.
    pub fn held(&self) -> &[Slot]
        ensures { result.now ≡ take self.now.count self.now.slots }
    {
        let count = self.count.min(KeepOuts::MOST);
        &self.slots[..count]
    }

    // A table with one keep-out more, if it has room for it.
    pub fn with(self, k: KeepOut) -> Option<KeepOuts>
        ensures { result ≡ with_of self k }
    {
        let n = self.count;
        if KeepOuts::MOST <= n {
            return None;
        }
        let mut table = self;
        table.slots[n] = Slot { held: k };
        table.count = n + 1;
        Some(table)
    }

    // At most 32, each with good numbers.
    pub fn is_good(&self) -> bool
        ensures { result ≡ good_table self.now }
    {
        self.count <= KeepOuts::MOST && all_good(self.held())
    }

    // Whether one of them covers the state.
    pub fn covers(&self, s: State) -> bool
        ensures { result ≡ covered_of (keep_outs_of self.now) s }
    {
        any_covers(self.held(), s)
    }
}

fn all_good(slots: &[Slot]) -> bool
    ensures { result ≡ list_all (λ slot. good_keep_out slot.held) slots.now }
{
    slots.iter().all(|slot| slot.held.is_good())
}

fn any_covers(slots: &[Slot], s: State) -> bool
    ensures { result ≡ list_any (λ slot. covers_of slot.held s) slots.now }
{
    slots.iter().any(|slot| slot.held.covers(s))
}
