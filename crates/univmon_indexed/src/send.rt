// What both updates write, once everything is judged.
ghost use Rattle.std.specs.Prelude.{◌≡◌, true, false, ℕ, ◌+◌, ◌*◌, ◌≤◌, length};
ghost use Rattle.header.specs.Lending.{head_in, head_out};
ghost use Rattle.layout.specs.State.{layer_at};
ghost use Rattle.layout.specs.Slices.{view, lent};
ghost use Rattle.layout.specs.Lending.{lent_in, lent_out};
ghost use Rattle.univmon.specs.inner.Needs.{zeroed_for};
ghost use Rattle.univmon_indexed.specs.inner.Needs.{JudgeReadyIn, fine_at, SendReadyIn, SendsReadyIn, SentOneIn, SentAllIn, KeptIn};
ghost use Rattle.header.specs.Header.{head_of};

use header::Scalars;
use layout::{dims, item_in, span_of, zero_places};
use layout_index::table_span;
use univmon::note;

// Sends an update to one layer, whose place in the list tells what the offer of the key did.
fn send_one(
    h: Scalars,
    lens: &mut [usize],
    flags: &mut [bool],
    counters: &mut [i64],
    norms: &mut [u64],
    entries: &mut [u64],
    counts: &mut [i64],
    index: &mut [u64],
    record: &[u64],
    weight: u64,
    l: usize,
    list: &mut [u64],
)
    requires send_ready_in { SendReadyIn (lent (head_of h lens.old flags.old) counters.old norms.old entries.old counts.old) index.old «record».now weight l }
    requires l_in_bounds { 2 * l + 2 ≤ length list.old }
    ensures { SentOneIn «record».now weight l (lent_in (head_in h lens flags) counters norms entries counts) (lent_out (head_out h lens flags) counters norms entries counts)
        index.old index.new list.old list.new }
{
    let shape = h.shape;
    let s = span_of(shape, l);
    let t = table_span(shape, l);
    let d = dims(shape, l);
    let item = item_in(record, l);
    let len = lens[l];
    let answer = layer_indexed::add(
        &mut counters[s.cells.start..s.cells.end],
        &mut norms[s.norms.start..s.norms.end],
        &mut entries[s.words.start..s.words.end],
        &mut counts[s.seats.start..s.seats.end],
        &mut index[t.start..t.end],
        d,
        len,
        item,
        weight,
    );
    note(lens, flags, list, l, len, answer);
}

// The same of the first layer of a call, which is not judged before: where it is fine, what the list has for
// the layers becomes zeros before it tells. Answers whether it was; if not, nothing is touched.
pub fn send_first(
    h: Scalars,
    lens: &mut [usize],
    flags: &mut [bool],
    counters: &mut [i64],
    norms: &mut [u64],
    entries: &mut [u64],
    counts: &mut [i64],
    index: &mut [u64],
    record: &[u64],
    weight: u64,
    l: usize,
    list: &mut [u64],
) -> bool
    requires judge_ready_in { JudgeReadyIn (lent (head_of h lens.old flags.old) counters.old norms.old entries.old counts.old) index.old «record».now weight 1 l }
    requires layers_in_bounds { 2 * h.shape.layers ≤ length list.old }
    ensures value { result ≡ fine_at h.shape «record».now weight index.old l (layer_at (view (lent_in (head_in h lens flags) counters norms entries counts)) l) }
    ensures sent_one_in { result ≡ true → SentOneIn «record».now weight l (lent_in (head_in h lens flags) counters norms entries counts) (lent_out (head_out h lens flags) counters norms entries counts)
        index.old index.new (zeroed_for h.shape list.old) list.new }
    ensures kept_in { result ≡ false → KeptIn (lent_in (head_in h lens flags) counters norms entries counts) (lent_out (head_out h lens flags) counters norms entries counts)
        index.old index.new list.old list.new }
{
    let shape = h.shape;
    let s = span_of(shape, l);
    let t = table_span(shape, l);
    let d = dims(shape, l);
    let item = item_in(record, l);
    let len = lens[l];
    let Some(answer) = layer_indexed::add_if_fine(
        &mut counters[s.cells.start..s.cells.end],
        &mut norms[s.norms.start..s.norms.end],
        &mut entries[s.words.start..s.words.end],
        &mut counts[s.seats.start..s.seats.end],
        &mut index[t.start..t.end],
        d,
        len,
        item,
        weight,
    ) else {
        return false;
    };
    zero_places(list, shape.layers);
    note(lens, flags, list, l, len, answer);
    true
}

// Sends an update to many layers from the first on; the list has a place for each layer of the shape.
pub fn send(
    h: Scalars,
    lens: &mut [usize],
    flags: &mut [bool],
    counters: &mut [i64],
    norms: &mut [u64],
    entries: &mut [u64],
    counts: &mut [i64],
    index: &mut [u64],
    record: &[u64],
    weight: u64,
    first: usize,
    many: usize,
    list: &mut [u64],
)
    requires sends_ready_in { SendsReadyIn (lent (head_of h lens.old flags.old) counters.old norms.old entries.old counts.old) index.old «record».now weight many first }
    requires layers_in_bounds { 2 * h.shape.layers ≤ length list.old }
    ensures { SentAllIn «record».now weight many first (lent_in (head_in h lens flags) counters norms entries counts) (lent_out (head_out h lens flags) counters norms entries counts)
        index.old index.new list.old list.new }
{
    for l in first..first + many {
        send_one(
            h, lens, flags, counters, norms, entries, counts, index, record, weight, l, list,
        );
    }
}
