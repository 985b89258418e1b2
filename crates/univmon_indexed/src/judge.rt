// How far an update may come at the layers that it touches. The offer is tried on the slices and taken back,
// so that everything is left as it was lent.
ghost use Rattle.refusal.specs.Refusals.{refused};
ghost use Rattle.std.specs.Prelude.{◌≡◌, ℕ};
ghost use Rattle.words.specs.Tests.{number};
ghost use Rattle.header.specs.Lending.{head_now};
ghost use Rattle.layer_indexed.specs.inner.Needs.{grade_number};
ghost use Rattle.layout.specs.State.{layer_at, all_layers};
ghost use Rattle.layout.specs.Slices.{view, lent};
ghost use Rattle.univmon_indexed.specs.Updates.{layers_tests_in};
ghost use Rattle.univmon_indexed.specs.inner.Needs.{JudgeReadyIn, grade_in, reaches_at};
ghost use Rattle.header.specs.Header.{head_of};

use header::Scalars;
use layer_indexed::Grade;
use layout::{cells_at, dims, item_in, norms_at, span_of};
use layout_index::table_span;
use refusal::Refusal;

// The grade of one layer.
fn grade_at(
    h: Scalars,
    lens: &[usize],
    flags: &[bool],
    counters: &[i64],
    norms: &[u64],
    entries: &mut [u64],
    counts: &mut [i64],
    index: &mut [u64],
    record: &[u64],
    weight: u64,
    l: usize,
) -> Grade
    requires { JudgeReadyIn (lent (head_now h lens flags) counters.now norms.now entries.old counts.old) index.old «record».now weight 1 l }
    ensures value { grade_number result ≡ grade_in h.shape «record».now weight index.old l (layer_at (view (lent (head_of h lens.now flags.now) counters.now norms.now entries.old counts.old)) l) }
    ensures entries_unchanged { (entries.new ≡ entries.old) × ((counts.new ≡ counts.old) × (index.new ≡ index.old)) }
{
    let shape = h.shape;
    let s = span_of(shape, l);
    let t = table_span(shape, l);
    let d = dims(shape, l);
    let item = item_in(record, l);
    let len = lens[l];
    layer_indexed::add_grade(
        cells_at(shape, l, counters),
        norms_at(shape, l, norms),
        &mut entries[s.words.start..s.words.end],
        &mut counts[s.seats.start..s.seats.end],
        &mut index[t.start..t.end],
        d,
        len,
        item,
        weight,
    )
}

// Whether many layers from the first on have at least a grade.
pub fn all_reach(
    h: Scalars,
    lens: &[usize],
    flags: &[bool],
    counters: &[i64],
    norms: &[u64],
    entries: &mut [u64],
    counts: &mut [i64],
    index: &mut [u64],
    record: &[u64],
    weight: u64,
    first: usize,
    many: usize,
    grade: Grade,
) -> bool
    requires { JudgeReadyIn (lent (head_now h lens flags) counters.now norms.now entries.old counts.old) index.old «record».now weight many first }
    ensures value { result ≡ all_layers (reaches_at (grade_number grade) h.shape «record».now weight index.old) many first (view (lent (head_of h lens.now flags.now) counters.now norms.now entries.old counts.old)) }
    ensures entries_unchanged { (entries.new ≡ entries.old) × ((counts.new ≡ counts.old) × (index.new ≡ index.old)) }
{
    for l in first..first + many {
        let here = grade_at(
            h, lens, flags, counters, norms, entries, counts, index, record, weight, l,
        );
        if !here.reaches(grade) {
            return false;
        }
    }
    true
}

// Whether the update may be made: 9 if something that it reads first is out of range, 11 if a counter would leave
// the range, 9 if a visit of its moves is refused. For a call that is refused: what is read first anywhere comes
// before a counter anywhere, and that before the moves.
pub fn check_layers(
    h: Scalars,
    lens: &[usize],
    flags: &[bool],
    counters: &[i64],
    norms: &[u64],
    entries: &mut [u64],
    counts: &mut [i64],
    index: &mut [u64],
    record: &[u64],
    weight: u64,
    first: usize,
    many: usize,
) -> Result<(), Refusal>
    requires { JudgeReadyIn (lent (head_now h lens flags) counters.now norms.now entries.old counts.old) index.old «record».now weight many first }
    ensures value { refused result ≡ number (layers_tests_in h.shape «record».now weight index.old many first (view (lent (head_of h lens.now flags.now) counters.now norms.now entries.old counts.old))) }
    ensures entries_unchanged { (entries.new ≡ entries.old) × ((counts.new ≡ counts.old) × (index.new ≡ index.old)) }
{
    if !all_reach(
        h,
        lens,
        flags,
        counters,
        norms,
        entries,
        counts,
        index,
        record,
        weight,
        first,
        many,
        Grade::Above,
    ) {
        return Err(Refusal::OutOfRange);
    }
    if !all_reach(
        h,
        lens,
        flags,
        counters,
        norms,
        entries,
        counts,
        index,
        record,
        weight,
        first,
        many,
        Grade::Unmoved,
    ) {
        return Err(Refusal::CounterAbove);
    }
    if !all_reach(
        h,
        lens,
        flags,
        counters,
        norms,
        entries,
        counts,
        index,
        record,
        weight,
        first,
        many,
        Grade::Fine,
    ) {
        return Err(Refusal::OutOfRange);
    }
    Ok(())
}
