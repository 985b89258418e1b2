// The updates on a header by value, with an index. Lengths and flags are taken out once and lent, as in
// `univmon`.
ghost use Rattle.refusal.specs.Refusals.{kept, refused};
ghost use Rattle.std.specs.Prelude.{◌≡◌, ℕ, length};
ghost use Rattle.layout.specs.Slices.{view};
ghost use Rattle.layout.specs.Outcomes.{left, left_after};
ghost use Rattle.layout.specs.Answers.{list_left};
ghost use Rattle.layout.specs.Lending.{lent_in, lent_out};
ghost use Rattle.layout_index.specs.Tables.{index_left};
ghost use Rattle.univmon.specs.declared.Kind.TheVariants as kind;
ghost use Rattle.univmon_indexed.specs.Updates.{updated_index, update_answers_in};
ghost use Rattle.univmon_indexed.specs.Calls.{indexed_update_call};

use crate::stages::update;
use header::Header;
use refusal::Refusal;
use univmon::{Kind, begins, mode_of};

// An update of either kind, on any arguments: 9, 12, 5, 6, 7, 14, 9, 11, 9, 16.
fn update_held(
    kind: Kind,
    header: Header,
    counters: &mut [i64],
    norms: &mut [u64],
    entries: &mut [u64],
    counts: &mut [i64],
    index: &mut [u64],
    record: &[u64],
    weight: i64,
    list: &mut [u64],
) -> Result<Header, Refusal>
    ensures counts_value { left (refused result) (lent_out (kept header result) counters norms entries counts)
        ≡ left_after (λ s. indexed_update_call kind s index.old «record».now weight (length list.old)) (lent_in header counters norms entries counts) }
    ensures index_after { index.new
        ≡ index_left (refused result) (updated_index kind (view (lent_in header counters norms entries counts)) index.old «record».now weight) index.old }
    ensures list_after { list.new
        ≡ list_left (refused result) (update_answers_in kind (view (lent_in header counters norms entries counts)) index.old «record».now weight) list.old }
{
    let begun = header.begin_update(weight, mode_of(kind));
    let mut lens = header.lens;
    let mut flags = header.flags;
    update(
        kind,
        header.scalars(),
        begins(begun),
        &mut lens,
        &mut flags,
        counters,
        norms,
        entries,
        counts,
        index,
        record,
        weight,
        list,
    )?;
    Ok(begun?.with_layers(lens, flags))
}

// The key goes to layers 0 to its bottom layer.
pub fn update_weighted_indexed(
    header: Header,
    counters: &mut [i64],
    norms: &mut [u64],
    entries: &mut [u64],
    counts: &mut [i64],
    index: &mut [u64],
    record: &[u64],
    weight: i64,
    list: &mut [u64],
) -> Result<Header, Refusal>
    ensures counts_value { left (refused result) (lent_out (kept header result) counters norms entries counts)
        ≡ left_after (λ s. indexed_update_call kind.Standard s index.old «record».now weight (length list.old)) (lent_in header counters norms entries counts) }
    ensures index_after { index.new
        ≡ index_left (refused result) (updated_index kind.Standard (view (lent_in header counters norms entries counts)) index.old «record».now weight) index.old }
    ensures list_after { list.new
        ≡ list_left (refused result) (update_answers_in kind.Standard (view (lent_in header counters norms entries counts)) index.old «record».now weight) list.old }
{
    update_held(
        Kind::Standard,
        header,
        counters,
        norms,
        entries,
        counts,
        index,
        record,
        weight,
        list,
    )
}

// The key goes to its bottom layer only.
pub fn update_weighted_terminal_indexed(
    header: Header,
    counters: &mut [i64],
    norms: &mut [u64],
    entries: &mut [u64],
    counts: &mut [i64],
    index: &mut [u64],
    record: &[u64],
    weight: i64,
    list: &mut [u64],
) -> Result<Header, Refusal>
    ensures counts_value { left (refused result) (lent_out (kept header result) counters norms entries counts)
        ≡ left_after (λ s. indexed_update_call kind.Terminal s index.old «record».now weight (length list.old)) (lent_in header counters norms entries counts) }
    ensures index_after { index.new
        ≡ index_left (refused result) (updated_index kind.Terminal (view (lent_in header counters norms entries counts)) index.old «record».now weight) index.old }
    ensures list_after { list.new
        ≡ list_left (refused result) (update_answers_in kind.Terminal (view (lent_in header counters norms entries counts)) index.old «record».now weight) list.old }
{
    update_held(
        Kind::Terminal,
        header,
        counters,
        norms,
        entries,
        counts,
        index,
        record,
        weight,
        list,
    )
}
