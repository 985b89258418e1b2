// A delta: a change of one counter that another relay saw. Everything is judged before anything is
// written.

#![tactic(auto)]

ghost use Rattle.refusal.specs.Refusals.{kept, refused};
ghost use Rattle.std.specs.Prelude.{◌≡◌, Bool, ◌&&◌, ◌++◌, ℕ, ◌+◌, ◌*◌, ◌≤◌, ◌<◌, length};
ghost use Rattle.words.specs.Tests.{number};
ghost use Rattle.heap.specs.Offer.{kept_by};
ghost use Rattle.heap.specs.inner.Telling.{tell_at};
ghost use Rattle.header.specs.Header.{with_mode, settled};
ghost use Rattle.layer.specs.Delta.{delta_layer, delta_answer};
ghost use Rattle.layer.specs.inner.Needs.{delta};
ghost use Rattle.layout.specs.State.{dims_at, layer_at, put_layer};
ghost use Rattle.layout.specs.Slices.{view, lent};
ghost use Rattle.layout.specs.Records.{item_at};
ghost use Rattle.layout.specs.Outcomes.{left, left_after};
ghost use Rattle.layout.specs.Answers.{list_left};
ghost use Rattle.layout.specs.inner.Needs.{Standing};
ghost use Rattle.layout.specs.inner.Telling.{list_tests};
ghost use Rattle.layout.specs.Lending.{lent_in, lent_out, lent_read};
ghost use Rattle.univmon_delta.specs.declared.Fidelity.{Fidelity};
ghost use Rattle.univmon_delta.specs.Deltas.{every_insert, delta_tests_at, delta_tests, delta_answers, delta_list_call, arrival};
ghost use Rattle.univmon_delta.specs.inner.Needs.{Placed, Arrives};

use header::{Header, Mode};
use heap::Answer;
use layout::{LentState, check_lent, dims, item_in, span_of, zero_places};
use refusal::Refusal;

// How much of the stream reached a relay that is fed by deltas.
#[derive(Clone, Copy, Debug, PartialEq, Eq)]
pub enum Fidelity {
    EveryInsert,
    PromotedOnly,
}

// Whether every insert was promoted.
pub fn every_insert(f: Fidelity) -> bool
    ensures { result ≡ every_insert f }
{
    matches!(f, Fidelity::EveryInsert)
}

// Whether the layer still holds every key: none was lost, and every insert came here.
pub fn kept_all(a: Answer, every: bool) -> bool
    ensures { result ≡ kept_by a && every }
{
    heap::kept(a) && every
}

// Whether the delta may be made: 9 if something that it reads is out of range, 11 if its counter would
// leave the range. No entry is read.
fn check_layer(
    state: LentState,
    record: &[u64],
    l: usize,
    row: usize,
    col: usize,
    count: i64,
) -> Result<(), Refusal>
    requires { Placed (lent_read state) «record».now l row col }
    ensures { (every : Bool) → refused result ≡ number (delta_tests_at (dims_at state.entry.header.now.shape l) (delta row col count (item_at «record».now l) every)
        (layer_at (view (lent_read state.entry)) l)) }
{
    let here = state.layer(l);
    let item = item_in(record, l);
    if !layer::delta_reads(
        here.cells,
        here.norms,
        here.counts,
        here.dims,
        here.len,
        row,
        col,
        item,
    ) {
        return Err(Refusal::OutOfRange);
    }
    if layer::delta_fits(here.cells, here.dims, row, col, count) {
        return Ok(());
    }
    Err(Refusal::CounterAbove)
}

// Makes the delta on its layer, once it is judged; the layer's place in the list tells what the offer of
// the key did.
fn deliver(
    h: Header,
    counters: &mut [i64],
    norms: &mut [u64],
    entries: &mut [u64],
    counts: &mut [i64],
    record: &[u64],
    l: usize,
    row: usize,
    col: usize,
    count: i64,
    every: bool,
    list: &mut [u64],
) -> Header
    requires arrives { Arrives (lent h counters.old norms.old entries.old counts.old) «record».now l row col count }
    requires l_in_bounds { 2 * l + 2 ≤ length list.old }
    ensures counts_value { view (lent_out result counters norms entries counts)
        ≡ put_layer (view (lent_in h counters norms entries counts)) l
        (delta_layer (dims_at h.shape l) (delta row col count (item_at «record».now l) every)
        (layer_at (view (lent_in h counters norms entries counts)) l)) }
    ensures standing { Standing (lent_out result counters norms entries counts) }
    ensures list_after { list.new ≡ tell_at list.old l
        (delta_answer (dims_at h.shape l) (delta row col count (item_at «record».now l) every)
        (layer_at (view (lent_in h counters norms entries counts)) l)) }
{
    let shape = h.shape;
    let s = span_of(shape, l);
    let d = dims(shape, l);
    let item = item_in(record, l);
    let lens = h.lens;
    let len = lens[l];
    let ca = s.cells.start;
    let ce = s.cells.end;
    let na = s.norms.start;
    let ne = s.norms.end;
    let ea = s.words.start;
    let ee = s.words.end;
    let ta = s.seats.start;
    let te = s.seats.end;
    let answer = layer::apply_delta(
        &mut counters[ca..ce],
        &mut norms[na..ne],
        &mut entries[ea..ee],
        &mut counts[ta..te],
        d,
        len,
        row,
        col,
        count,
        item,
    );
    heap::tell_at(list, l, answer);
    h.touched(l, heap::len_after(len, answer), kept_all(answer, every))
}

// Whether a delta with a list of so many words may be made: 9, 12, 8, then 9 and 11 for its layer, then 16.
fn check_delta(
    state: LentState,
    record: &[u64],
    l: usize,
    row: usize,
    col: usize,
    count: i64,
    list: usize,
) -> Result<(), Refusal>
    ensures { (f : Fidelity) → refused result ≡ number (delta_tests (lent_read state.entry) «record».now (arrival l row col count f) ++ list_tests (2 * state.entry.header.now.shape.layers) list) }
{
    check_lent(
        *state.header,
        state.counters,
        state.norms,
        state.entries,
        state.counts,
    )?;
    let shape = state.header.shape;
    if record.len() != 2 + 2 * shape.layers {
        return Err(Refusal::RecordLength);
    }
    if shape.layers <= l {
        return Err(Refusal::OutsideShape);
    }
    let d = dims(shape, l);
    if d.rows <= row {
        return Err(Refusal::OutsideShape);
    }
    if d.cols <= col {
        return Err(Refusal::OutsideShape);
    }
    check_layer(state, record, l, row, col, count)?;
    if list < 2 * shape.layers {
        return Err(Refusal::TooShort);
    }
    Ok(())
}

// The header that a delta begins with: an unset mode becomes standard, and nothing is added up.
pub fn begin_delta(h: Header) -> Header
    ensures { result ≡ with_mode h (settled h.mode) }
{
    let mode = h.mode;
    h.with_mode(header::join(mode, Mode::Standard))
}

// A delta on one counter of one layer, and the offer of its key there: 9, 12, 8, 9, 11, 16.
pub fn apply_delta(
    header: Header,
    counters: &mut [i64],
    norms: &mut [u64],
    entries: &mut [u64],
    counts: &mut [i64],
    record: &[u64],
    layer: usize,
    row: usize,
    col: usize,
    count: i32,
    fidelity: Fidelity,
    list: &mut [u64],
) -> Result<Header, Refusal>
    ensures counts_value { left (refused result) (lent_out (kept header result) counters norms entries counts)
        ≡ left_after (λ s. delta_list_call s «record».now (arrival layer row col count fidelity) (length list.old)) (lent_in header counters norms entries counts) }
    ensures list_after { list.new
        ≡ list_left (refused result) (delta_answers (view (lent_in header counters norms entries counts)) «record».now (arrival layer row col count fidelity)) list.old }
{
    let n = i64::from(count);
    check_delta(
        LentState {
            header: &header,
            counters: &*counters,
            norms: &*norms,
            entries: &*entries,
            counts: &*counts,
        },
        record,
        layer,
        row,
        col,
        n,
        list.len(),
    )?;
    let begun = begin_delta(header);
    let every = every_insert(fidelity);
    zero_places(list, header.shape.layers);
    Ok(deliver(
        begun, counters, norms, entries, counts, record, layer, row, col, n, every, list,
    ))
}
