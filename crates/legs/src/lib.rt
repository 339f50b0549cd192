// The legs of a roadmap: a square of bits, 256 rows of four words. The bit (i, j) says whether a leg joins the milestones i and j.
#![tactic(auto)]

ghost use Rattle.std.specs.Prelude.{◌≡◌, ◌+◌, ◌*◌, ◌≤◌, ◌<◌, length};
ghost use Rattle.legs.specs.Bits.{leg_at, unseen_at, Marked, Linked, Without};
ghost use Rattle.legs.specs.Next.{Next};

// Whether the leg from i to j stands.
pub fn leg(legs: &[u64; 1024], i: usize, j: usize) -> bool
    requires { (i < 256) × (j < 256) }
    ensures { result ≡ leg_at legs.now i j }
{
    (legs[4 * i + j / 64] >> (j % 64)) % 2 == 1
}

// Sets the bit (i, j) of as many rows as are lent.
pub fn mark(rows: &mut [u64], i: usize, j: usize)
    requires { (i < 256) × (j < 256) × (4 * i + 4 ≤ length rows.old) }
    ensures { Marked rows.old i j rows.new }
{
    let at = 4 * i + j / 64;
    rows[at] |= 1 << (j % 64);
}

// Joins i and j: sets the bits (i, j) and (j, i).
pub fn link(legs: &mut [u64; 1024], i: usize, j: usize)
    requires { (i < 256) × (j < 256) }
    ensures { Linked legs.old i j legs.new }
{
    mark(legs, i, j);
    mark(legs, j, i);
}

// The bits of x that are not set in y.
fn without(x: u64, y: u64) -> u64
    ensures { Without x y result }
{
    (x | y) ^ y
}

// The first neighbour of i from the number `from` on and below `end` that is not among the seen. So a row is walked in ascending order, a word
// at a time, and a neighbour that was seen costs nothing.
pub fn next_unseen(
    legs: &[u64; 1024],
    i: usize,
    seen: &[u64; 4],
    from: usize,
    end: usize,
) -> Option<usize>
    requires { (i < 256) × (end ≤ 256) }
    ensures { Next (unseen_at legs.now i seen.now) from end result }
{
    let mut at = from;
    'words: while at < end {
        let rest = without(legs[4 * i + at / 64], seen[at / 64]) >> (at % 64);
        if rest != 0 {
            let found = at + rest.trailing_zeros() as usize;
            return (found < end).then_some(found);
        }
        at = 64 * (at / 64 + 1);
    }
    None
}

// The first neighbour of i from the number `from` on and below `end`.
pub fn next(legs: &[u64; 1024], i: usize, from: usize, end: usize) -> Option<usize>
    requires { (i < 256) × (end ≤ 256) }
    ensures { Next (leg_at legs.now i) from end result }
{
    let none: [u64; 4] = [0; 4];
    next_unseen(legs, i, &none, from, end)
}
