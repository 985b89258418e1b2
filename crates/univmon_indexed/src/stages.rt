// What both forms of an update share, with lengths and flags lent: everything but the beginning of weight
// and mode. Everything is judged before anything is written, so a refused call leaves all as it was.
ghost use Rattle.refusal.specs.Refusals.{refused};
ghost use Rattle.std.specs.Prelude.{◌≡◌, Bool, true, false, ◌&&◌, ◌++◌, ℕ, ◌*◌, ◌≤◌, length, nat_abs, leb};
ghost use Rattle.words.specs.Num.{top};
ghost use Rattle.words.specs.Tests.{number};
ghost use Rattle.header.specs.Lending.{head_in, head_out};
ghost use Rattle.layout.specs.State.{all_layers};
ghost use Rattle.layout.specs.Slices.{view, lent};
ghost use Rattle.layout.specs.Records.{bottom_word};
ghost use Rattle.layout.specs.Lending.{lent_in, lent_out};
ghost use Rattle.layout.specs.inner.Telling.{list_tests};
ghost use Rattle.univmon.specs.inner.Needs.{zeroed_for};
ghost use Rattle.univmon_indexed.specs.Updates.{layers_tests_in};
ghost use Rattle.univmon_indexed.specs.inner.Needs.{JudgeReadyIn, fine_at, KeyReadyIn, SentAllIn, KeptIn, SentOrKept, KeySentOrKept, key_tests_in, sound_tests_in, staged_tests};
ghost use Rattle.header.specs.Header.{head_of};

use crate::judge::{all_reach, check_layers};
use crate::send::{send, send_first};
use header::Scalars;
use layer_indexed::Grade;
use layout_index::tables_in;
use refusal::Refusal;
use univmon::{Kind, bottom_word, check_sizes, first_sent};

// Where the list is long enough and the update may be made at every layer, all are sent to; if not, nothing is
// touched. The layers behind the first are judged, then the first is judged and sent to in one go: half of all
// keys reach no other layer.
fn send_if_fine(
    h: Scalars,
    lens: &mut [usize],
    flags: &mut [bool],
    counters: &mut [i64],
    norms: &mut [u64],
    entries: &mut [u64],
    counts: &mut [i64],
    index: &mut [u64],
    record: &[u64],
    weight: u64,
    first: usize,
    many: usize,
    list: &mut [u64],
) -> bool
    requires judge_ready_in { JudgeReadyIn (lent (head_of h lens.old flags.old) counters.old norms.old entries.old counts.old) index.old «record».now weight many first }
    requires le_many { 1 ≤ many }
    ensures value { result ≡ leb (2 * h.shape.layers) (length list.old)
        && all_layers (fine_at h.shape «record».now weight index.old) many first (view (lent_in (head_in h lens flags) counters norms entries counts)) }
    ensures sent_all_in { result ≡ true → SentAllIn «record».now weight many first (lent_in (head_in h lens flags) counters norms entries counts) (lent_out (head_out h lens flags) counters norms entries counts)
        index.old index.new (zeroed_for h.shape list.old) list.new }
    ensures kept_in { result ≡ false → KeptIn (lent_in (head_in h lens flags) counters norms entries counts) (lent_out (head_out h lens flags) counters norms entries counts)
        index.old index.new list.old list.new }
{
    if list.len() < 2 * h.shape.layers {
        return false;
    }
    let next = first + 1;
    let rest = many - 1;
    if !all_reach(
        h,
        &*lens,
        &*flags,
        &*counters,
        &*norms,
        entries,
        counts,
        index,
        record,
        weight,
        next,
        rest,
        Grade::Fine,
    ) {
        return false;
    }
    if !send_first(
        h, lens, flags, counters, norms, entries, counts, index, record, weight, first, list,
    ) {
        return false;
    }
    send(
        h, lens, flags, counters, norms, entries, counts, index, record, weight, next, rest, list,
    );
    true
}

// The layers that a key reaches, sent to if nothing is refused: 9, 11, 9, then 16 for the list's length.
fn send_judged(
    h: Scalars,
    lens: &mut [usize],
    flags: &mut [bool],
    counters: &mut [i64],
    norms: &mut [u64],
    entries: &mut [u64],
    counts: &mut [i64],
    index: &mut [u64],
    record: &[u64],
    weight: u64,
    first: usize,
    many: usize,
    list: &mut [u64],
) -> Result<(), Refusal>
    requires judge_ready_in { JudgeReadyIn (lent (head_of h lens.old flags.old) counters.old norms.old entries.old counts.old) index.old «record».now weight many first }
    requires le_many { 1 ≤ many }
    ensures value { refused result ≡ number (layers_tests_in h.shape «record».now weight index.old many first (view (lent_in (head_in h lens flags) counters norms entries counts))
        ++ list_tests (2 * h.shape.layers) (length list.old)) }
    ensures sent_or_kept { SentOrKept «record».now weight many first (lent_in (head_in h lens flags) counters norms entries counts) (lent_out (head_out h lens flags) counters norms entries counts)
        index.old index.new list.old list.new (refused result) }
{
    if send_if_fine(
        h, lens, flags, counters, norms, entries, counts, index, record, weight, first, many, list,
    ) {
        return Ok(());
    }
    check_layers(
        h, &*lens, &*flags, &*counters, &*norms, entries, counts, index, record, weight, first,
        many,
    )?;
    // every layer is fine, so it was the list
    Err(Refusal::TooShort)
}

// A key goes to the layers that its bottom hash says: 9, 11, 9, 16.
fn send_key(
    kind: Kind,
    h: Scalars,
    lens: &mut [usize],
    flags: &mut [bool],
    counters: &mut [i64],
    norms: &mut [u64],
    entries: &mut [u64],
    counts: &mut [i64],
    index: &mut [u64],
    record: &[u64],
    weight: u64,
    list: &mut [u64],
    bottom_hash: u64,
) -> Result<(), Refusal>
    requires key_ready_in { KeyReadyIn (lent (head_of h lens.old flags.old) counters.old norms.old entries.old counts.old) index.old «record».now weight }
    requires bottom_hash_value { bottom_hash ≡ bottom_word «record».now }
    ensures value { refused result ≡ number (key_tests_in kind «record».now weight (lent_in (head_in h lens flags) counters norms entries counts) index.old (length list.old)) }
    ensures key_sent_or_kept { KeySentOrKept kind «record».now weight (lent_in (head_in h lens flags) counters norms entries counts) (lent_out (head_out h lens flags) counters norms entries counts)
        index.old index.new list.old list.new (refused result) }
{
    let bottom = header::bottom_of(bottom_hash, h.shape.layers);
    let first = first_sent(kind, bottom);
    let many = bottom + 1 - first;
    send_judged(
        h, lens, flags, counters, norms, entries, counts, index, record, weight, first, many, list,
    )
}

// 9 for a header out of range, a wrong slice length or a wrong length of the index, 12 for a wrong record
// length.
fn check_sound(
    scalars: Scalars,
    lens: &[usize],
    flags: &[bool],
    counters: &[i64],
    norms: &[u64],
    entries: &[u64],
    counts: &[i64],
    index: usize,
    record: usize,
) -> Result<(), Refusal>
    ensures { refused result ≡ number (sound_tests_in (lent (head_of scalars lens.now flags.now) counters.now norms.now entries.now counts.now) index «record») }
{
    check_sizes(
        scalars,
        lens,
        flags,
        counters.len(),
        norms.len(),
        entries.len(),
        counts.len(),
    )?;
    let shape = scalars.shape;
    if index != tables_in(shape) {
        return Err(Refusal::OutOfRange);
    }
    if record != 2 + 2 * shape.layers {
        return Err(Refusal::RecordLength);
    }
    Ok(())
}

// All of an update but its beginning; `begins` says whether that is refused. Answers 9, 12, then
// `begins`, then 9, 11, 9, 16.
pub fn update(
    kind: Kind,
    scalars: Scalars,
    begins: Result<(), Refusal>,
    lens: &mut [usize],
    flags: &mut [bool],
    counters: &mut [i64],
    norms: &mut [u64],
    entries: &mut [u64],
    counts: &mut [i64],
    index: &mut [u64],
    record: &[u64],
    weight: i64,
    list: &mut [u64],
) -> Result<(), Refusal>
    requires { refused begins ≡ 0 → nat_abs weight ≤ top }
    ensures value { refused result ≡ number (staged_tests kind (refused begins) (lent_in (head_in scalars lens flags) counters norms entries counts) index.old «record».now weight (length list.old)) }
    ensures key_sent_or_kept { KeySentOrKept kind «record».now (nat_abs weight) (lent_in (head_in scalars lens flags) counters norms entries counts) (lent_out (head_out scalars lens flags) counters norms entries counts)
        index.old index.new list.old list.new (refused result) }
{
    let bottom_hash = bottom_word(record);
    check_sound(
        scalars,
        &*lens,
        &*flags,
        &*counters,
        &*norms,
        &*entries,
        &*counts,
        index.len(),
        record.len(),
    )?;
    begins?;
    send_key(
        kind,
        scalars,
        lens,
        flags,
        counters,
        norms,
        entries,
        counts,
        index,
        record,
        words::magnitude(weight),
        list,
        bottom_hash,
    )
}
