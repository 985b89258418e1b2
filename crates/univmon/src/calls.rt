// The updates on a header by value. The header's own steps add the weight, set the mode and put back
// lengths and flags; in between, lengths and flags are taken out once and lent, since a header by value
// would be copied at each layer.
ghost use Rattle.refusal.specs.Refusals.{kept, refused};
ghost use Rattle.std.specs.Prelude.{◌≡◌, ℕ, length};
ghost use Rattle.layout.specs.Slices.{view};
ghost use Rattle.layout.specs.Outcomes.{left, left_after};
ghost use Rattle.layout.specs.Answers.{list_left};
ghost use Rattle.layout.specs.Lending.{lent_in, lent_out};
ghost use Rattle.univmon.specs.declared.Kind.TheVariants as kind;
ghost use Rattle.univmon.specs.Updates.{update_answers};
ghost use Rattle.univmon.specs.Calls.{update_list_call};

use crate::Kind;
use crate::stages::{mode_of, update};
use header::{Header, Totals};
use refusal::Refusal;

// An update of either kind, on any arguments: 9, 12, 5, 6, 7, 14, 9, 11, 16. What it begins with is worked out behind
// everything that may refuse, so that no second header is kept meanwhile.
fn update_held(
    kind: Kind,
    header: Header,
    counters: &mut [i64],
    norms: &mut [u64],
    entries: &mut [u64],
    counts: &mut [i64],
    record: &[u64],
    weight: i64,
    list: &mut [u64],
) -> Result<Header, Refusal>
    ensures counts_value { left (refused result) (lent_out (kept header result) counters norms entries counts)
        ≡ left_after (λ s. update_list_call kind s «record».now weight (length list.old)) (lent_in header counters norms entries counts) }
    ensures list_after { list.new
        ≡ list_left (refused result) (update_answers kind (view (lent_in header counters norms entries counts)) «record».now weight) list.old }
{
    let mode = mode_of(kind);
    let scalars = header.scalars();
    let begins = scalars.check_begin(weight, mode);
    let mut lens = header.lens;
    let mut flags = header.flags;
    update(
        kind, scalars, begins, &mut lens, &mut flags, counters, norms, entries, counts, record,
        weight, list,
    )?;
    let added = Totals::of_update(words::magnitude(weight));
    Ok(header.begin(added, mode).with_layers(lens, flags))
}

// The key goes to layers 0 to its bottom layer.
pub fn update_weighted(
    header: Header,
    counters: &mut [i64],
    norms: &mut [u64],
    entries: &mut [u64],
    counts: &mut [i64],
    record: &[u64],
    weight: i64,
    list: &mut [u64],
) -> Result<Header, Refusal>
    ensures counts_value { left (refused result) (lent_out (kept header result) counters norms entries counts)
        ≡ left_after (λ s. update_list_call kind.Standard s «record».now weight (length list.old)) (lent_in header counters norms entries counts) }
    ensures list_after { list.new
        ≡ list_left (refused result) (update_answers kind.Standard (view (lent_in header counters norms entries counts)) «record».now weight) list.old }
{
    update_held(
        Kind::Standard,
        header,
        counters,
        norms,
        entries,
        counts,
        record,
        weight,
        list,
    )
}

// The key goes to its bottom layer only.
pub fn update_weighted_terminal(
    header: Header,
    counters: &mut [i64],
    norms: &mut [u64],
    entries: &mut [u64],
    counts: &mut [i64],
    record: &[u64],
    weight: i64,
    list: &mut [u64],
) -> Result<Header, Refusal>
    ensures counts_value { left (refused result) (lent_out (kept header result) counters norms entries counts)
        ≡ left_after (λ s. update_list_call kind.Terminal s «record».now weight (length list.old)) (lent_in header counters norms entries counts) }
    ensures list_after { list.new
        ≡ list_left (refused result) (update_answers kind.Terminal (view (lent_in header counters norms entries counts)) «record».now weight) list.old }
{
    update_held(
        Kind::Terminal,
        header,
        counters,
        norms,
        entries,
        counts,
        record,
        weight,
        list,
    )
}
