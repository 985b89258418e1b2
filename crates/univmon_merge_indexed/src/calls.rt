// A second state merged into a first with an index: everything is judged before anything is written.
ghost use Rattle.refusal.specs.Refusals.{kept, refused};
ghost use Rattle.std.specs.Prelude.{◌≡◌, length};
ghost use Rattle.layout.specs.Slices.{view, lent};
ghost use Rattle.layout.specs.Outcomes.{left, left_after};
ghost use Rattle.layout.specs.Answers.{list_left};
ghost use Rattle.layout.specs.Lending.{lent_in, lent_out};
ghost use Rattle.layout_index.specs.Tables.{index_left};
ghost use Rattle.univmon_merge.specs.Merges.{merge_answers};
ghost use Rattle.univmon_merge_indexed.specs.Merges.{merged_index, indexed_merge_call};

use crate::layers::merge_layers;
use header::Header;
use layout::LentState;
use layout_index::check_indexed;
use refusal::Refusal;
use univmon_merge::check_merge;

// A second state merged into a first: 9, 10, 6, 7, 14, 9, 11, 16.
pub fn merge_indexed(
    header: Header,
    counters: &mut [i64],
    norms: &mut [u64],
    entries: &mut [u64],
    counts: &mut [i64],
    index: &mut [u64],
    other: Header,
    other_counters: &[i64],
    other_norms: &[u64],
    other_entries: &[u64],
    other_counts: &[i64],
    list: &mut [u64],
) -> Result<Header, Refusal>
    ensures counts_value { left (refused result) (lent_out (kept header result) counters norms entries counts)
        ≡ left_after (λ s. indexed_merge_call s index.old (lent other other_counters.now other_norms.now other_entries.now other_counts.now) (length list.old)) (lent_in header counters norms entries counts) }
    ensures index_after { index.new
        ≡ index_left (refused result) (merged_index (view (lent_in header counters norms entries counts)) (view (lent other other_counters.now other_norms.now other_entries.now other_counts.now)) index.old) index.old }
    ensures list_after { list.new
        ≡ list_left (refused result) (merge_answers (view (lent_in header counters norms entries counts)) (view (lent other other_counters.now other_norms.now other_entries.now other_counts.now))) list.old }
{
    check_indexed(header, &*counters, &*norms, &*entries, &*counts, &*index)?;
    let second = LentState {
        header: &other,
        counters: other_counters,
        norms: other_norms,
        entries: other_entries,
        counts: other_counts,
    };
    check_merge(
        LentState {
            header: &header,
            counters: &*counters,
            norms: &*norms,
            entries: &*entries,
            counts: &*counts,
        },
        second,
        list.len(),
    )?;
    let layers = header.shape.layers;
    let begun = header.begin(other.totals, other.mode);
    Ok(merge_layers(
        begun, counters, norms, entries, counts, index, second, layers, list,
    ))
}
