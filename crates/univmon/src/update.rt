// What both updates write: functions of this crate only, so they may ask for what `stages` has tested. The
// layers behind the first are judged before; `send_first` judges its own.
ghost use Rattle.std.specs.Prelude.{◌≡◌, Bool, true, false, ◌&&◌, ℕ, ◌+◌, ◌*◌, ◌≤◌, ◌<◌, length, get_or, set};
ghost use Rattle.heap_moves.specs.Cands.{most_cands};
ghost use Rattle.heap.specs.Offer.{kept_by, len_by};
ghost use Rattle.heap.specs.inner.Telling.{tell_at};
ghost use Rattle.header.specs.Lending.{head_in, head_out};
ghost use Rattle.layout.specs.State.{layer_at};
ghost use Rattle.layout.specs.Slices.{view, lent};
ghost use Rattle.layout.specs.Lending.{lent_in, lent_out};
ghost use Rattle.univmon.specs.inner.Needs.{SendReady, SendsReady, JudgeReady, ready_at, SentOne, SentAll, zeroed_for};
ghost use Rattle.header.specs.Header.{head_of};

use header::Scalars;
use heap::Answer;
use layout::{dims, item_in, span_of, zero_places};

// What the offer of a key did at a layer with `len` candidates is noted: the layer's length, its place in
// the list, and its flag, which falls where a key was not kept.
pub fn note(
    lens: &mut [usize],
    flags: &mut [bool],
    list: &mut [u64],
    l: usize,
    len: usize,
    answer: Answer,
)
    requires l_in_bounds { (l < length lens.old) × ((l < length flags.old) × (2 * l + 2 ≤ length list.old)) }
    requires len_le_most_cands { len ≤ most_cands }
    ensures lens_after { lens.new ≡ set lens.old l (len_by answer len) }
    ensures flags_after { flags.new ≡ set flags.old l (get_or flags.old l false && kept_by answer) }
    ensures list_after { list.new ≡ tell_at list.old l answer }
{
    lens[l] = heap::len_after(len, answer);
    heap::tell_at(list, l, answer);
    if !heap::kept(answer) {
        flags[l] = false;
    }
}

// Sends an update to one layer, whose place in the list tells what the offer of the key did.
fn send_one(
    h: Scalars,
    lens: &mut [usize],
    flags: &mut [bool],
    counters: &mut [i64],
    norms: &mut [u64],
    entries: &mut [u64],
    counts: &mut [i64],
    record: &[u64],
    weight: u64,
    l: usize,
    list: &mut [u64],
)
    requires send_ready { SendReady (lent (head_of h lens.old flags.old) counters.old norms.old entries.old counts.old) «record».now weight l }
    requires l_in_bounds { 2 * l + 2 ≤ length list.old }
    ensures { SentOne «record».now weight l (lent_in (head_in h lens flags) counters norms entries counts) (lent_out (head_out h lens flags) counters norms entries counts)
        list.old list.new }
{
    let shape = h.shape;
    let s = span_of(shape, l);
    let d = dims(shape, l);
    let item = item_in(record, l);
    let len = lens[l];
    let answer = layer::add(
        &mut counters[s.cells.start..s.cells.end],
        &mut norms[s.norms.start..s.norms.end],
        &mut entries[s.words.start..s.words.end],
        &mut counts[s.seats.start..s.seats.end],
        d,
        len,
        item,
        weight,
    );
    note(lens, flags, list, l, len, answer);
}

// The same of the first layer of a call, which is not judged before: where it is ready, what the list has
// for the layers becomes zeros before it tells. Answers whether it was; if not, nothing is touched.
pub fn send_first(
    h: Scalars,
    lens: &mut [usize],
    flags: &mut [bool],
    counters: &mut [i64],
    norms: &mut [u64],
    entries: &mut [u64],
    counts: &mut [i64],
    record: &[u64],
    weight: u64,
    l: usize,
    list: &mut [u64],
) -> bool
    requires judge_ready { JudgeReady (lent (head_of h lens.old flags.old) counters.old norms.old entries.old counts.old) «record».now weight 1 l }
    requires layers_in_bounds { 2 * h.shape.layers ≤ length list.old }
    ensures value { result ≡ ready_at h.shape «record».now weight l (layer_at (view (lent_in (head_in h lens flags) counters norms entries counts)) l) }
    ensures sent_one { result ≡ true → SentOne «record».now weight l (lent_in (head_in h lens flags) counters norms entries counts) (lent_out (head_out h lens flags) counters norms entries counts)
        (zeroed_for h.shape list.old) list.new }
    ensures counts_value { result ≡ false → (lent_out (head_out h lens flags) counters norms entries counts ≡ lent_in (head_in h lens flags) counters norms entries counts)
        × (list.new ≡ list.old) }
{
    let shape = h.shape;
    let s = span_of(shape, l);
    let d = dims(shape, l);
    let item = item_in(record, l);
    let len = lens[l];
    let Some(answer) = layer::add_if_ready(
        &mut counters[s.cells.start..s.cells.end],
        &mut norms[s.norms.start..s.norms.end],
        &mut entries[s.words.start..s.words.end],
        &mut counts[s.seats.start..s.seats.end],
        d,
        len,
        item,
        weight,
    ) else {
        return false;
    };
    zero_places(list, shape.layers);
    note(lens, flags, list, l, len, answer);
    true
}

// Sends an update to many layers from the first on; the list has a place for each layer of the shape.
pub fn send(
    h: Scalars,
    lens: &mut [usize],
    flags: &mut [bool],
    counters: &mut [i64],
    norms: &mut [u64],
    entries: &mut [u64],
    counts: &mut [i64],
    record: &[u64],
    weight: u64,
    first: usize,
    many: usize,
    list: &mut [u64],
)
    requires sends_ready { SendsReady (lent (head_of h lens.old flags.old) counters.old norms.old entries.old counts.old) «record».now weight many first }
    requires layers_in_bounds { 2 * h.shape.layers ≤ length list.old }
    ensures { SentAll «record».now weight many first (lent_in (head_in h lens flags) counters norms entries counts) (lent_out (head_out h lens flags) counters norms entries counts)
        list.old list.new }
{
    for l in first..first + many {
        send_one(
            h, lens, flags, counters, norms, entries, counts, record, weight, l, list,
        );
    }
}
