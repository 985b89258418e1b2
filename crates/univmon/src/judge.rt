// What an update reads of the layers that it touches, and whether it fits: nothing is written here.
// The state is lent whole, so that a contract can name it; no entry is read.
ghost use Rattle.refusal.specs.Refusals.{refused};
ghost use Rattle.std.specs.Prelude.{◌≡◌, Bool, true, ℕ, ◌+◌, ◌<◌};
ghost use Rattle.words.specs.Tests.{number};
ghost use Rattle.header.specs.Lending.{head_now};
ghost use Rattle.layout.specs.State.{layer_at, all_layers};
ghost use Rattle.layout.specs.Slices.{view, lent};
ghost use Rattle.layout.specs.Lending.{lent_now};
ghost use Rattle.univmon.specs.inner.Needs.{JudgeReady, ready_at};
ghost use Rattle.univmon.specs.Updates.{reads_at, layers_tests};
ghost use Rattle.header.specs.Header.{head_of};

use header::Scalars;
use layout::{cells_at, dims, item_in, norms_at, seats_at};
use refusal::Refusal;

// Whether one layer is ready for the update.
fn ready_at(
    h: Scalars,
    lens: &[usize],
    flags: &[bool],
    counters: &[i64],
    norms: &[u64],
    entries: &[u64],
    counts: &[i64],
    record: &[u64],
    weight: u64,
    l: usize,
) -> bool
    requires { JudgeReady (lent_now (head_now h lens flags) counters norms entries counts) «record».now weight 1 l }
    ensures { result ≡ ready_at h.shape «record».now weight l (layer_at (view (lent (head_of h lens.now flags.now) counters.now norms.now entries.now counts.now)) l) }
{
    let shape = h.shape;
    let d = dims(shape, l);
    let item = item_in(record, l);
    let len = lens[l];
    layer::add_ready(
        cells_at(shape, l, counters),
        norms_at(shape, l, norms),
        seats_at(shape, l, counts),
        d,
        len,
        item,
        weight,
    )
}

// Whether what the update reads of one layer is in range.
fn reads_at(
    h: Scalars,
    lens: &[usize],
    flags: &[bool],
    counters: &[i64],
    norms: &[u64],
    entries: &[u64],
    counts: &[i64],
    record: &[u64],
    l: usize,
) -> bool
    requires { JudgeReady (lent_now (head_now h lens flags) counters norms entries counts) «record».now 0 1 l }
    ensures { (w : ℕ) → result ≡ reads_at h.shape «record».now w l (layer_at (view (lent (head_of h lens.now flags.now) counters.now norms.now entries.now counts.now)) l) }
{
    let shape = h.shape;
    let d = dims(shape, l);
    let item = item_in(record, l);
    let len = lens[l];
    layer::add_reads(
        cells_at(shape, l, counters),
        norms_at(shape, l, norms),
        seats_at(shape, l, counts),
        d,
        len,
        item,
    )
}

// Whether every touched layer is ready.
pub fn all_ready(
    h: Scalars,
    lens: &[usize],
    flags: &[bool],
    counters: &[i64],
    norms: &[u64],
    entries: &[u64],
    counts: &[i64],
    record: &[u64],
    weight: u64,
    first: usize,
    many: usize,
) -> bool
    requires { JudgeReady (lent_now (head_now h lens flags) counters norms entries counts) «record».now weight many first }
    ensures { result ≡ all_layers (ready_at h.shape «record».now weight) many first (view (lent (head_of h lens.now flags.now) counters.now norms.now entries.now counts.now)) }
{
    for l in first..first + many {
        if !ready_at(
            h, lens, flags, counters, norms, entries, counts, record, weight, l,
        ) {
            return false;
        }
    }
    true
}

// Whether all that is read of the touched layers is in range.
fn all_read(
    h: Scalars,
    lens: &[usize],
    flags: &[bool],
    counters: &[i64],
    norms: &[u64],
    entries: &[u64],
    counts: &[i64],
    record: &[u64],
    first: usize,
    many: usize,
) -> bool
    requires { JudgeReady (lent_now (head_now h lens flags) counters norms entries counts) «record».now 0 many first }
    ensures { (w : ℕ) → result ≡ all_layers (reads_at h.shape «record».now w) many first (view (lent (head_of h lens.now flags.now) counters.now norms.now entries.now counts.now)) }
{
    for l in first..first + many {
        if !reads_at(h, lens, flags, counters, norms, entries, counts, record, l) {
            return false;
        }
    }
    true
}

// Whether the update may be made: 9 if something that it reads is out of range, 11 if a counter would
// leave the range. One pass where all is well; only a refusal looks again, since 9 anywhere comes
// before 11 anywhere.
pub fn check_layers(
    h: Scalars,
    lens: &[usize],
    flags: &[bool],
    counters: &[i64],
    norms: &[u64],
    entries: &[u64],
    counts: &[i64],
    record: &[u64],
    weight: u64,
    first: usize,
    many: usize,
) -> Result<(), Refusal>
    requires { JudgeReady (lent_now (head_now h lens flags) counters norms entries counts) «record».now weight many first }
    ensures { refused result ≡ number (layers_tests h.shape «record».now weight many first (view (lent (head_of h lens.now flags.now) counters.now norms.now entries.now counts.now))) }
{
    if all_ready(
        h, lens, flags, counters, norms, entries, counts, record, weight, first, many,
    ) {
        return Ok(());
    }
    if all_read(
        h, lens, flags, counters, norms, entries, counts, record, first, many,
    ) {
        return Err(Refusal::CounterAbove);
    }
    Err(Refusal::OutOfRange)
}
