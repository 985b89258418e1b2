// Another layer merged into a layer with an index: the counters are added, the candidates of both counted anew,
// and the index made anew. What is left of layer and list is what `layer::merge` leaves.
//
// For the crates of this repository, which show what it requires.

#![tactic(auto)]

mod candidates;
mod distinct;

ghost use Rattle.std.specs.Prelude.{◌≡◌, Bool, ◌&&◌, List, ℕ, ◌*◌, ◌≤◌, length, ℤ, leb};
ghost use Rattle.heap.specs.Places.{places};
ghost use Rattle.heap_index.specs.Index.{index_length};
ghost use Rattle.layer.specs.inner.Needs.{layer_of, layer_in, layer_out};
ghost use Rattle.layer.specs.Merge.{merge_layer, merge_answer};
ghost use Rattle.layer.specs.inner.Gather.{LayerMergeReady};
ghost use Rattle.layer_indexed.specs.Merging.{merge_index_in};

use candidates::merge_candidates;
use layer::{Dims, Merged};

// How many candidates it leaves, and how many distinct keys there were; the list tells what it did with each.
pub fn merge(
    counters: &mut [i64],
    norms: &mut [u64],
    entries: &mut [u64],
    counts: &mut [i64],
    index: &mut [u64],
    list: &mut [u64],
    d: Dims,
    len: usize,
    other_counters: &[i64],
    other_entries: &[u64],
    other_len: usize,
) -> Merged
    requires layer_merge_ready { LayerMergeReady d len other_len counters.old norms.old entries.old counts.old other_counters.now other_entries.now }
    requires list_len { (length list.old ≡ 4 * d.size) × (length index.old ≡ index_length d.size) }
    ensures by_index { (ws₂ : List ℕ) (ns₂ : List ℤ) (flag flag₂ : Bool) → other_len ≤ length ns₂
        → layer_out d counters norms entries counts result.len (flag && flag₂ && leb result.keys d.size)
        ≡ merge_layer d (layer_in d counters norms entries counts len flag)
        (layer_of d other_counters.now ws₂ other_entries.now ns₂ other_len flag₂) }
    ensures by_index_2 { (ws₂ : List ℕ) (ns₂ : List ℤ) (flag flag₂ : Bool) → other_len ≤ length ns₂
        → list.new ≡ places (2 * d.size) (merge_answer d (layer_in d counters norms entries counts len flag)
        (layer_of d other_counters.now ws₂ other_entries.now ns₂ other_len flag₂)) }
    ensures by_index_3 { (ws₂ : List ℕ) (ns₂ : List ℤ) (flag flag₂ : Bool) → other_len ≤ length ns₂
        → index.new ≡ merge_index_in d (layer_in d counters norms entries counts len flag)
        (layer_of d other_counters.now ws₂ other_entries.now ns₂ other_len flag₂) }
{
    countsketch_l2_norm::merge(counters, norms, other_counters, d.rows, d.cols);
    merge_candidates(
        entries,
        counts,
        index,
        list,
        d,
        len,
        other_entries,
        other_len,
        &*counters,
    )
}
