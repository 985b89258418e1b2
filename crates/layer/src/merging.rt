// Another layer merged into a layer: the counters are added, and the candidates of both are counted
// anew.
ghost use Rattle.std.specs.Prelude.{◌≡◌, Bool, true, ◌&&◌, List, ℕ, ◌*◌, ◌≤◌, length, ℤ, leb};
ghost use Rattle.words.specs.Num.{all_in};
ghost use Rattle.heap.specs.Places.{places};
ghost use Rattle.layer.specs.declared.Dims.{Dims};
ghost use Rattle.layer.specs.inner.Needs.{layer_of, layer_in, layer_out};
ghost use Rattle.layer.specs.Merge.{merge_layer, merge_answer, merge_reads, merge_fits};
ghost use Rattle.layer.specs.inner.Gather.{LayerMergeReady};

use crate::candidates::merge_candidates;
use crate::{Dims, Merged};

// Whether all that a merge reads of the two layers is in range: every counter and every candidate.
#[tactic(auto, using(crate::proofs::Merges::merge_reads_are))]
pub fn merge_reads(
    counters: &[i64],
    counts: &[i64],
    len: usize,
    other_counters: &[i64],
    other_counts: &[i64],
    other_len: usize,
) -> bool
    requires { (len ≤ length counts.now) × (other_len ≤ length other_counts.now) }
    ensures { (d : Dims) (ws es ws₂ es₂ : List ℕ) (flag flag₂ : Bool) → result
        ≡ merge_reads (layer_of d counters.now ws es counts.now len flag) (layer_of d other_counters.now ws₂ es₂ other_counts.now other_len flag₂) }
{
    countsketch_l2_norm::all_in(counters)
        && heap::counts_in_range(counts, len)
        && countsketch_l2_norm::all_in(other_counters)
        && heap::counts_in_range(other_counts, other_len)
}

// Whether every sum of two counters is in range, of counters that are in range.
#[tactic(auto, using(crate::proofs::Merges::merge_fits_are))]
pub fn merge_fits(counters: &[i64], other_counters: &[i64]) -> bool
    requires counters_len { length counters.now ≡ length other_counters.now }
    requires counters_value { (all_in counters.now ≡ true) × (all_in other_counters.now ≡ true) }
    ensures { (d : Dims) (ws es ws₂ es₂ : List ℕ) (ns ns₂ : List ℤ) (len len₂ : ℕ) (flag flag₂ : Bool) → result
        ≡ merge_fits (layer_of d counters.now ws es ns len flag) (layer_of d other_counters.now ws₂ es₂ ns₂ len₂ flag₂) }
{
    countsketch_l2_norm::sums_fit(counters, other_counters)
}

// The merge: how many candidates it leaves, and how many distinct keys there were; the list tells what
// it did with each. The other's norms and counts are not read.
pub fn merge(
    counters: &mut [i64],
    norms: &mut [u64],
    entries: &mut [u64],
    counts: &mut [i64],
    list: &mut [u64],
    d: Dims,
    len: usize,
    other_counters: &[i64],
    other_entries: &[u64],
    other_len: usize,
) -> Merged
    requires layer_merge_ready { LayerMergeReady d len other_len counters.old norms.old entries.old counts.old other_counters.now other_entries.now }
    requires list_len { length list.old ≡ 4 * d.size }
    ensures by_index { (ws₂ : List ℕ) (ns₂ : List ℤ) (flag flag₂ : Bool) → other_len ≤ length ns₂
        → layer_out d counters norms entries counts result.len (flag && flag₂ && leb result.keys d.size)
        ≡ merge_layer d (layer_in d counters norms entries counts len flag)
        (layer_of d other_counters.now ws₂ other_entries.now ns₂ other_len flag₂) }
    ensures by_index_2 { (ws₂ : List ℕ) (ns₂ : List ℤ) (flag flag₂ : Bool) → other_len ≤ length ns₂
        → list.new ≡ places (2 * d.size) (merge_answer d (layer_in d counters norms entries counts len flag)
        (layer_of d other_counters.now ws₂ other_entries.now ns₂ other_len flag₂)) }
{
    countsketch_l2_norm::merge(counters, norms, other_counters, d.rows, d.cols);
    merge_candidates(
        entries,
        counts,
        list,
        d,
        len,
        other_entries,
        other_len,
        &*counters,
    )
}
