// The updates on a header whose lengths and flags are lent beside the slices, 19 places each, so that no
// header is copied in and out. Shape, totals and mode go by value, as `Scalars`; lengths and flags are
// stored in place.
ghost use Rattle.refusal.specs.Refusals.{kept, refused};
ghost use Rattle.std.specs.Prelude.{◌≡◌, ℕ, length};
ghost use Rattle.header.specs.Lending.{head_in, head_out};
ghost use Rattle.layout.specs.Slices.{view};
ghost use Rattle.layout.specs.Outcomes.{left, left_after};
ghost use Rattle.layout.specs.Answers.{list_left};
ghost use Rattle.layout.specs.Lending.{lent_in, lent_out};
ghost use Rattle.univmon.specs.declared.Kind.TheVariants as kind;
ghost use Rattle.univmon.specs.Updates.{update_answers};
ghost use Rattle.univmon.specs.Calls.{lent_update_list_call};

use crate::Kind;
use crate::stages::{mode_of, update};
use header::{Scalars, Totals};
use refusal::Refusal;

// An update of either kind, on any arguments.
fn update_lent(
    kind: Kind,
    scalars: Scalars,
    lens: &mut [usize],
    flags: &mut [bool],
    counters: &mut [i64],
    norms: &mut [u64],
    entries: &mut [u64],
    counts: &mut [i64],
    record: &[u64],
    weight: i64,
    list: &mut [u64],
) -> Result<Scalars, Refusal>
    ensures counts_value { left (refused result) (lent_out (head_out (kept scalars result) lens flags) counters norms entries counts)
        ≡ left_after (λ s. lent_update_list_call kind s «record».now weight (length list.old)) (lent_in (head_in scalars lens flags) counters norms entries counts) }
    ensures list_after { list.new
        ≡ list_left (refused result) (update_answers kind (view (lent_in (head_in scalars lens flags) counters norms entries counts)) «record».now weight) list.old }
{
    let mode = mode_of(kind);
    let begins = scalars.check_begin(weight, mode);
    update(
        kind, scalars, begins, lens, flags, counters, norms, entries, counts, record, weight, list,
    )?;
    Ok(scalars.begin(Totals::of_update(words::magnitude(weight)), mode))
}

// The key goes to layers 0 to its bottom layer.
pub fn update_weighted_lent(
    scalars: Scalars,
    lens: &mut [usize],
    flags: &mut [bool],
    counters: &mut [i64],
    norms: &mut [u64],
    entries: &mut [u64],
    counts: &mut [i64],
    record: &[u64],
    weight: i64,
    list: &mut [u64],
) -> Result<Scalars, Refusal>
    ensures counts_value { left (refused result) (lent_out (head_out (kept scalars result) lens flags) counters norms entries counts)
        ≡ left_after (λ s. lent_update_list_call kind.Standard s «record».now weight (length list.old)) (lent_in (head_in scalars lens flags) counters norms entries counts) }
    ensures list_after { list.new
        ≡ list_left (refused result) (update_answers kind.Standard (view (lent_in (head_in scalars lens flags) counters norms entries counts)) «record».now weight) list.old }
{
    update_lent(
        Kind::Standard,
        scalars,
        lens,
        flags,
        counters,
        norms,
        entries,
        counts,
        record,
        weight,
        list,
    )
}

// The key goes to its bottom layer only.
pub fn update_weighted_terminal_lent(
    scalars: Scalars,
    lens: &mut [usize],
    flags: &mut [bool],
    counters: &mut [i64],
    norms: &mut [u64],
    entries: &mut [u64],
    counts: &mut [i64],
    record: &[u64],
    weight: i64,
    list: &mut [u64],
) -> Result<Scalars, Refusal>
    ensures counts_value { left (refused result) (lent_out (head_out (kept scalars result) lens flags) counters norms entries counts)
        ≡ left_after (λ s. lent_update_list_call kind.Terminal s «record».now weight (length list.old)) (lent_in (head_in scalars lens flags) counters norms entries counts) }
    ensures list_after { list.new
        ≡ list_left (refused result) (update_answers kind.Terminal (view (lent_in (head_in scalars lens flags) counters norms entries counts)) «record».now weight) list.old }
{
    update_lent(
        Kind::Terminal,
        scalars,
        lens,
        flags,
        counters,
        norms,
        entries,
        counts,
        record,
        weight,
        list,
    )
}
