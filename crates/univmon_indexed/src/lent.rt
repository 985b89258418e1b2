// The updates with an index, on a header whose lengths and flags are lent beside the slices, 19 places each.
ghost use Rattle.refusal.specs.Refusals.{kept, refused};
ghost use Rattle.std.specs.Prelude.{◌≡◌, ℕ, length};
ghost use Rattle.header.specs.Lending.{head_in, head_out};
ghost use Rattle.layout.specs.Slices.{view};
ghost use Rattle.layout.specs.Outcomes.{left, left_after};
ghost use Rattle.layout.specs.Answers.{list_left};
ghost use Rattle.layout.specs.Lending.{lent_in, lent_out};
ghost use Rattle.layout_index.specs.Tables.{index_left};
ghost use Rattle.univmon.specs.declared.Kind.TheVariants as kind;
ghost use Rattle.univmon_indexed.specs.Updates.{updated_index, update_answers_in};
ghost use Rattle.univmon_indexed.specs.Calls.{lent_indexed_update_call};

use crate::stages::update;
use header::Scalars;
use refusal::Refusal;
use univmon::{Kind, begins, mode_of};

// An update of either kind, on any arguments.
fn update_lent(
    kind: Kind,
    scalars: Scalars,
    lens: &mut [usize],
    flags: &mut [bool],
    counters: &mut [i64],
    norms: &mut [u64],
    entries: &mut [u64],
    counts: &mut [i64],
    index: &mut [u64],
    record: &[u64],
    weight: i64,
    list: &mut [u64],
) -> Result<Scalars, Refusal>
    ensures counts_value { left (refused result) (lent_out (head_out (kept scalars result) lens flags) counters norms entries counts)
        ≡ left_after (λ s. lent_indexed_update_call kind s index.old «record».now weight (length list.old)) (lent_in (head_in scalars lens flags) counters norms entries counts) }
    ensures index_after { index.new
        ≡ index_left (refused result) (updated_index kind (view (lent_in (head_in scalars lens flags) counters norms entries counts)) index.old «record».now weight) index.old }
    ensures list_after { list.new
        ≡ list_left (refused result) (update_answers_in kind (view (lent_in (head_in scalars lens flags) counters norms entries counts)) index.old «record».now weight) list.old }
{
    let begun = scalars.begin_update(weight, mode_of(kind));
    update(
        kind,
        scalars,
        begins(begun),
        lens,
        flags,
        counters,
        norms,
        entries,
        counts,
        index,
        record,
        weight,
        list,
    )?;
    begun
}

// The key goes to layers 0 to its bottom layer.
pub fn update_weighted_indexed_lent(
    scalars: Scalars,
    lens: &mut [usize],
    flags: &mut [bool],
    counters: &mut [i64],
    norms: &mut [u64],
    entries: &mut [u64],
    counts: &mut [i64],
    index: &mut [u64],
    record: &[u64],
    weight: i64,
    list: &mut [u64],
) -> Result<Scalars, Refusal>
    ensures counts_value { left (refused result) (lent_out (head_out (kept scalars result) lens flags) counters norms entries counts)
        ≡ left_after (λ s. lent_indexed_update_call kind.Standard s index.old «record».now weight (length list.old)) (lent_in (head_in scalars lens flags) counters norms entries counts) }
    ensures index_after { index.new
        ≡ index_left (refused result) (updated_index kind.Standard (view (lent_in (head_in scalars lens flags) counters norms entries counts)) index.old «record».now weight) index.old }
    ensures list_after { list.new
        ≡ list_left (refused result) (update_answers_in kind.Standard (view (lent_in (head_in scalars lens flags) counters norms entries counts)) index.old «record».now weight) list.old }
{
    update_lent(
        Kind::Standard,
        scalars,
        lens,
        flags,
        counters,
        norms,
        entries,
        counts,
        index,
        record,
        weight,
        list,
    )
}

// The key goes to its bottom layer only.
pub fn update_weighted_terminal_indexed_lent(
    scalars: Scalars,
    lens: &mut [usize],
    flags: &mut [bool],
    counters: &mut [i64],
    norms: &mut [u64],
    entries: &mut [u64],
    counts: &mut [i64],
    index: &mut [u64],
    record: &[u64],
    weight: i64,
    list: &mut [u64],
) -> Result<Scalars, Refusal>
    ensures counts_value { left (refused result) (lent_out (head_out (kept scalars result) lens flags) counters norms entries counts)
        ≡ left_after (λ s. lent_indexed_update_call kind.Terminal s index.old «record».now weight (length list.old)) (lent_in (head_in scalars lens flags) counters norms entries counts) }
    ensures index_after { index.new
        ≡ index_left (refused result) (updated_index kind.Terminal (view (lent_in (head_in scalars lens flags) counters norms entries counts)) index.old «record».now weight) index.old }
    ensures list_after { list.new
        ≡ list_left (refused result) (update_answers_in kind.Terminal (view (lent_in (head_in scalars lens flags) counters norms entries counts)) index.old «record».now weight) list.old }
{
    update_lent(
        Kind::Terminal,
        scalars,
        lens,
        flags,
        counters,
        norms,
        entries,
        counts,
        index,
        record,
        weight,
        list,
    )
}
