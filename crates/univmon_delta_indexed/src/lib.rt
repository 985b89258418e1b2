// A delta on a state with an index. Everything is judged before anything is written; the offer is tried on the
// slices and taken back.

#![tactic(auto)]

ghost use Rattle.refusal.specs.Refusals.{kept, refused};
ghost use Rattle.std.specs.Prelude.{◌≡◌, Bool, cond, ◌++◌, ℕ, ◌+◌, ◌*◌, ◌≤◌, length, eqb};
ghost use Rattle.words.specs.Tests.{number};
ghost use Rattle.heap.specs.inner.Telling.{tell_at};
ghost use Rattle.layer.specs.inner.Needs.{delta};
ghost use Rattle.layer_indexed.specs.Adding.{delta_layer_in, delta_index_in, delta_answer_in};
ghost use Rattle.layer_indexed.specs.inner.Needs.{grade_number};
ghost use Rattle.layout.specs.State.{dims_at, layer_at, put_layer};
ghost use Rattle.layout.specs.Slices.{view, lent};
ghost use Rattle.layout.specs.Records.{item_at};
ghost use Rattle.layout.specs.Outcomes.{left, left_after};
ghost use Rattle.layout.specs.Answers.{list_left};
ghost use Rattle.layout.specs.inner.Needs.{Standing};
ghost use Rattle.layout.specs.inner.Telling.{list_tests};
ghost use Rattle.layout.specs.Lending.{lent_in, lent_out};
ghost use Rattle.layout_index.specs.Tables.{table_at, put_table, index_left};
ghost use Rattle.univmon_delta.specs.declared.Fidelity.{Fidelity};
ghost use Rattle.univmon_delta.specs.Deltas.{arrival};
ghost use Rattle.univmon_delta_indexed.specs.Deltas.{arrived_index, delta_answers_in, delta_tests_in, indexed_delta_tests, indexed_delta_call};
ghost use Rattle.univmon_delta_indexed.specs.inner.Needs.{PlacedIn, ArrivesIn};

use header::Header;
use layer_indexed::Grade;
use layout::{dims, item_in, norms_at, span_of, zero_places};
use layout_index::{check_indexed, table_span};
use refusal::Refusal;
use univmon_delta::{Fidelity, begin_delta, every_insert, kept_all};

// Whether a grade is refused.
fn check_grade(grade: Grade) -> Result<(), Refusal>
    ensures { refused result ≡ cond (eqb (grade_number grade) 4) 0 (cond (eqb (grade_number grade) 2) 11 9) }
{
    match grade {
        Grade::Unread | Grade::Unmoved => Err(Refusal::OutOfRange),
        Grade::Above => Err(Refusal::CounterAbove),
        Grade::Fine => Ok(()),
    }
}

// Whether the delta may be made: 9 if something that it reads first is out of range, 11 if its counter would leave
// the range, 9 if a visit of its moves is refused.
fn check_layer(
    h: Header,
    counters: &mut [i64],
    norms: &[u64],
    entries: &mut [u64],
    counts: &mut [i64],
    index: &mut [u64],
    record: &[u64],
    l: usize,
    row: usize,
    col: usize,
    count: i64,
) -> Result<(), Refusal>
    requires { PlacedIn (lent h counters.old norms.now entries.old counts.old) index.old «record».now l row col }
    ensures value { (every : Bool) → refused result ≡ number (delta_tests_in (dims_at h.shape l) (delta row col count (item_at «record».now l) every) (table_at h.shape index.old l)
        (layer_at (view (lent h counters.old norms.now entries.old counts.old)) l)) }
    ensures counters_unchanged { (counters.new ≡ counters.old) × ((entries.new ≡ entries.old) × ((counts.new ≡ counts.old) × (index.new ≡ index.old))) }
{
    let shape = h.shape;
    let s = span_of(shape, l);
    let t = table_span(shape, l);
    let d = dims(shape, l);
    let item = item_in(record, l);
    let lens = h.lens;
    let len = lens[l];
    let ca = s.cells.start;
    let ce = s.cells.end;
    let ea = s.words.start;
    let ee = s.words.end;
    let ta = s.seats.start;
    let te = s.seats.end;
    let ia = t.start;
    let ie = t.end;
    let grade = layer_indexed::delta_grade(
        &mut counters[ca..ce],
        norms_at(shape, l, norms),
        &mut entries[ea..ee],
        &mut counts[ta..te],
        &mut index[ia..ie],
        d,
        len,
        row,
        col,
        count,
        item,
    );
    check_grade(grade)
}

// Makes the delta on its layer, once it is judged; the layer's place in the list tells what the offer of
// the key did.
fn deliver(
    h: Header,
    counters: &mut [i64],
    norms: &mut [u64],
    entries: &mut [u64],
    counts: &mut [i64],
    index: &mut [u64],
    record: &[u64],
    l: usize,
    row: usize,
    col: usize,
    count: i64,
    every: bool,
    list: &mut [u64],
) -> Header
    requires arrives_in { ArrivesIn (lent h counters.old norms.old entries.old counts.old) index.old «record».now l row col count }
    requires l_in_bounds { 2 * l + 2 ≤ length list.old }
    ensures counts_value { view (lent_out result counters norms entries counts)
        ≡ put_layer (view (lent_in h counters norms entries counts)) l
        (delta_layer_in (dims_at h.shape l) (delta row col count (item_at «record».now l) every) (table_at h.shape index.old l)
        (layer_at (view (lent_in h counters norms entries counts)) l)) }
    ensures standing { Standing (lent_out result counters norms entries counts) }
    ensures index_after { index.new ≡ put_table h.shape index.old l
        (delta_index_in (dims_at h.shape l) (delta row col count (item_at «record».now l) every) (table_at h.shape index.old l)
        (layer_at (view (lent_in h counters norms entries counts)) l)) }
    ensures list_after { list.new ≡ tell_at list.old l
        (delta_answer_in (dims_at h.shape l) (delta row col count (item_at «record».now l) every) (table_at h.shape index.old l)
        (layer_at (view (lent_in h counters norms entries counts)) l)) }
{
    let shape = h.shape;
    let s = span_of(shape, l);
    let t = table_span(shape, l);
    let d = dims(shape, l);
    let item = item_in(record, l);
    let lens = h.lens;
    let len = lens[l];
    let ca = s.cells.start;
    let ce = s.cells.end;
    let na = s.norms.start;
    let ne = s.norms.end;
    let ea = s.words.start;
    let ee = s.words.end;
    let ta = s.seats.start;
    let te = s.seats.end;
    let ia = t.start;
    let ie = t.end;
    let answer = layer_indexed::apply_delta(
        &mut counters[ca..ce],
        &mut norms[na..ne],
        &mut entries[ea..ee],
        &mut counts[ta..te],
        &mut index[ia..ie],
        d,
        len,
        row,
        col,
        count,
        item,
    );
    heap::tell_at(list, l, answer);
    h.touched(l, heap::len_after(len, answer), kept_all(answer, every))
}

// Whether a delta with a list of so many words may be made: 9, 12, 8, then 9, 11 and 9 for its layer, then 16.
fn check_delta(
    h: Header,
    counters: &mut [i64],
    norms: &[u64],
    entries: &mut [u64],
    counts: &mut [i64],
    index: &mut [u64],
    record: &[u64],
    l: usize,
    row: usize,
    col: usize,
    count: i64,
    list: usize,
) -> Result<(), Refusal>
    ensures value { (f : Fidelity) → refused result ≡ number (indexed_delta_tests (lent h counters.old norms.now entries.old counts.old) index.old «record».now (arrival l row col count f) ++ list_tests (2 * h.shape.layers) list) }
    ensures counters_unchanged { (counters.new ≡ counters.old) × ((entries.new ≡ entries.old) × ((counts.new ≡ counts.old) × (index.new ≡ index.old))) }
{
    check_indexed(h, &*counters, norms, &*entries, &*counts, &*index)?;
    let shape = h.shape;
    if record.len() != 2 + 2 * shape.layers {
        return Err(Refusal::RecordLength);
    }
    if shape.layers <= l {
        return Err(Refusal::OutsideShape);
    }
    let d = dims(shape, l);
    if d.rows <= row {
        return Err(Refusal::OutsideShape);
    }
    if d.cols <= col {
        return Err(Refusal::OutsideShape);
    }
    check_layer(
        h, counters, norms, entries, counts, index, record, l, row, col, count,
    )?;
    if list < 2 * shape.layers {
        return Err(Refusal::TooShort);
    }
    Ok(())
}

// A delta on one counter of one layer, and the offer of its key there: 9, 12, 8, 9, 11, 9, 16.
pub fn apply_delta_indexed(
    header: Header,
    counters: &mut [i64],
    norms: &mut [u64],
    entries: &mut [u64],
    counts: &mut [i64],
    index: &mut [u64],
    record: &[u64],
    layer: usize,
    row: usize,
    col: usize,
    count: i32,
    fidelity: Fidelity,
    list: &mut [u64],
) -> Result<Header, Refusal>
    ensures counts_value { left (refused result) (lent_out (kept header result) counters norms entries counts)
        ≡ left_after (λ s. indexed_delta_call s index.old «record».now (arrival layer row col count fidelity) (length list.old)) (lent_in header counters norms entries counts) }
    ensures index_after { index.new
        ≡ index_left (refused result) (arrived_index (view (lent_in header counters norms entries counts)) index.old «record».now (arrival layer row col count fidelity)) index.old }
    ensures list_after { list.new
        ≡ list_left (refused result) (delta_answers_in (view (lent_in header counters norms entries counts)) index.old «record».now (arrival layer row col count fidelity)) list.old }
{
    let n = i64::from(count);
    check_delta(
        header,
        counters,
        &*norms,
        entries,
        counts,
        index,
        record,
        layer,
        row,
        col,
        n,
        list.len(),
    )?;
    let begun = begin_delta(header);
    let every = every_insert(fidelity);
    zero_places(list, header.shape.layers);
    Ok(deliver(
        begun, counters, norms, entries, counts, index, record, layer, row, col, n, every, list,
    ))
}
