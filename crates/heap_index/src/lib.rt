// An index beside one layer's candidates: a lent table of words, 0 for an empty place, else the
// number of an entry plus 1. A key's home is the key modulo the table's length; after a collision
// comes the next place, wrapping at the end. Nothing is assumed of the words: where they name no
// candidate, or lead nowhere, a lookup says so.
//
// These functions are called by the other crates of this repository, which show what they require.

#![tactic(auto)]

mod building;
mod changes;
mod checking;
mod lookups;

ghost use Rattle.std.specs.Prelude.{◌≡◌, ℕ, ◌<◌};
ghost use Rattle.heap_index.specs.Index.{next_place, dist, home, ends_at};

pub use building::{build, index_length};
pub use changes::{close_from, exchange, insert, remove};
pub use checking::index_ok;
pub use lookups::{found_under, is_name, look};

// Where a lookup that is not refused ended: at the key or at an empty place, with its probes.
#[derive(Clone, Copy)]
pub enum Lookup {
    Met(usize, usize),
    Vacant(usize, usize),
}

impl Lookup {
    // The place where it ended.
    pub fn place(self) -> usize
        ensures { result ≡ ends_at self }
    {
        match self {
            Lookup::Met(p, _) => p,
            Lookup::Vacant(p, _) => p,
        }
    }
}

// The place after p.
pub fn after(m: usize, p: usize) -> usize
    requires { p < m }
    ensures { (result ≡ next_place m p) × (result < m) }
{
    let q = p + 1;
    if q == m {
        return 0;
    }
    q
}

// How many places lead from a to b.
pub fn steps(m: usize, a: usize, b: usize) -> usize
    requires { (a < m) × (b < m) }
    ensures { result ≡ dist m a b }
{
    if a <= b {
        return b - a;
    }
    m - a + b
}

// The place where a key's lookup starts. The usual lengths are powers of two, and need no division.
pub fn home_of(m: usize, key: u64) -> usize
    requires { 0 < m }
    ensures { (result ≡ home m key) × (result < m) }
{
    let w = m as u64;
    let mask = w - 1;
    if w & mask == 0 {
        return (key & mask) as usize;
    }
    (key % w) as usize
}
