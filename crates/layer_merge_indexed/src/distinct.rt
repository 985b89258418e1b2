// The first entries of distinct keys, one behind the other, with an index over them that is used here alone.
ghost use Rattle.std.specs.Prelude.{◌≡◌, [], ◌∷◌, ℕ, ◌+◌, ◌≤◌, length};
ghost use Rattle.layer.specs.inner.Gather.{items_of, Entries};
ghost use Rattle.layer_merge_indexed.specs.inner.Aside.{Apart, Behind, with_firsts};

use heap_index::Lookup;
use heap_moves::Item;

// An entry comes in behind the first k, unless its key stands there; how many there are then.
fn take_in(seen: &mut [u64], aside: &mut [u64], zeros: &mut [i64], k: usize, w: Item) -> usize
    requires apart { Apart seen.old aside.old zeros.old k }
    requires behind { Behind (length seen.old) (length zeros.old) k 1 }
    ensures result_after { items_of aside.new result ≡ with_firsts (items_of aside.old k) (w ∷ []) }
    ensures apart_2 { Apart seen.new aside.new zeros.new result × (result ≤ k + 1) }
{
    let Some(l) = heap_index::look(&*seen, &*aside, &*zeros, k, w.key) else {
        return k;
    };
    let Lookup::Vacant(p, _) = l else {
        return k;
    };
    seen[p] = k as u64 + 1;
    heap_moves::put_cand(aside, zeros, k, w, 0);
    k + 1
}

// The first n entries of the source come in behind the first `start`, each unless its key stands there.
pub fn take_firsts(
    seen: &mut [u64],
    aside: &mut [u64],
    zeros: &mut [i64],
    start: usize,
    source: &[u64],
    n: usize,
) -> usize
    requires apart { Apart seen.old aside.old zeros.old start }
    requires behind { Behind (length seen.old) (length zeros.old) start n }
    requires entries { Entries (length source.now) n }
    ensures result_after { items_of aside.new result ≡ with_firsts (items_of aside.old start) (items_of source.now n) }
    ensures apart_2 { Apart seen.new aside.new zeros.new result × (result ≤ start + n) }
{
    let mut k = start;
    for i in 0..n {
        let w = heap_moves::item_at(source, i);
        k = take_in(seen, aside, zeros, k, w);
    }
    k
}
