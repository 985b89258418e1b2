// The first part of the scan for a key: four entries at a time, their four tests joined. It stops
// before four of which one has the key, or where fewer are left; the plain scan goes on from there.
ghost use Rattle.std.specs.Prelude.{◌≡◌, ◌≢◌, ℕ, ◌+◌, ◌*◌, ◌≤◌, ◌<◌, length, get_or};
ghost use Rattle.words.specs.inner.Fours.{four_other};

// Whether four entries, of four words each, all have other keys.
fn four_other(four: &[u64], key: u64) -> bool
    requires { 16 ≤ length four.now }
    ensures { result ≡ four_other (get_or four.now 0 0) (get_or four.now 4 0) (get_or four.now 8 0) (get_or four.now 12 0) key }
{
    let p = four[0] != key;
    let q = four[4] != key;
    let s = four[8] != key;
    let t = four[12] != key;
    p & q & s & t
}

// A place before which none of the first n entries has the key.
pub fn front_other(entries: &[u64], n: usize, key: u64) -> usize
    requires { 4 * n ≤ length entries.now }
    ensures { (result ≤ n) × ((j : ℕ) → j < result → get_or entries.now (4 * j) 0 ≢ key) }
{
    let fours = entries[..4 * n]
        .chunks_exact(16)
        .position(|four| !four_other(four, key));
    4 * fours.unwrap_or(n / 4)
}
