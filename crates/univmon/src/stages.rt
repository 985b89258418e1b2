// What both forms of an update share, with lengths and flags lent: everything but the beginning of weight
// and mode. Everything is judged before anything is written, so a refused call leaves all as it was.
ghost use Rattle.refusal.specs.Refusals.{refused};
ghost use Rattle.std.specs.Prelude.{◌≡◌, Bool, true, false, ◌&&◌, ◌++◌, ℕ, ◌*◌, ◌≤◌, length, nat_abs, leb};
ghost use Rattle.words.specs.Num.{top};
ghost use Rattle.words.specs.Tests.{number};
ghost use Rattle.header.specs.Lending.{head_in, head_out};
ghost use Rattle.layout.specs.State.{all_layers};
ghost use Rattle.layout.specs.Slices.{view, lent};
ghost use Rattle.layout.specs.Outcomes.{left, size_tests};
ghost use Rattle.layout.specs.Records.{bottom_word};
ghost use Rattle.layout.specs.Answers.{list_left};
ghost use Rattle.layout.specs.Lending.{lent_in, lent_out};
ghost use Rattle.univmon.specs.Updates.{mode_of, first_sent, update_answers};
ghost use Rattle.univmon.specs.Calls.{place_tests};
ghost use Rattle.univmon.specs.inner.Needs.{JudgeReady, KeyReady, ready_at, SentAll, zeroed_for, sound_tests, sent_by, told_by, key_sent, key_told, sent_after};
ghost use Rattle.header.specs.Header.{head_of};

use crate::Kind;
use crate::judge::{all_ready, check_layers};
use crate::update::{send, send_first};
use header::{Mode, Scalars, Shape};
use layout::lengths_match;
use refusal::Refusal;

pub fn mode_of(kind: Kind) -> Mode
    ensures { result ≡ mode_of kind }
{
    match kind {
        Kind::Standard => Mode::Standard,
        Kind::Terminal => Mode::Terminal,
    }
}

// The first layer that a key with this bottom layer is sent to.
pub fn first_sent(kind: Kind, bottom: usize) -> usize
    ensures { result ≡ first_sent kind bottom }
{
    match kind {
        Kind::Standard => 0,
        Kind::Terminal => bottom,
    }
}

// Whether the header is in range and the slices have its lengths, lengths and flags 19 places: 9.
pub fn check_sizes(
    scalars: Scalars,
    lens: &[usize],
    flags: &[bool],
    counters: usize,
    norms: usize,
    entries: usize,
    counts: usize,
) -> Result<(), Refusal>
    ensures { refused result ≡ number (place_tests (head_of scalars lens.now flags.now) ++ size_tests (head_of scalars lens.now flags.now) counters norms entries counts) }
{
    if lens.len() != Shape::MAX_LAYERS {
        return Err(Refusal::OutOfRange);
    }
    if flags.len() != Shape::MAX_LAYERS {
        return Err(Refusal::OutOfRange);
    }
    let shape = scalars.shape;
    if !header::fields_in_range(shape, scalars.totals, lens, flags) {
        return Err(Refusal::OutOfRange);
    }
    if !lengths_match(shape, counters, norms, entries, counts) {
        return Err(Refusal::OutOfRange);
    }
    Ok(())
}

// The same, then 12 for a wrong record length.
fn check_sound(
    scalars: Scalars,
    lens: &[usize],
    flags: &[bool],
    counters: usize,
    norms: usize,
    entries: usize,
    counts: usize,
    record: usize,
) -> Result<(), Refusal>
    ensures { refused result ≡ number (sound_tests (head_of scalars lens.now flags.now) counters norms entries counts «record») }
{
    check_sizes(scalars, lens, flags, counters, norms, entries, counts)?;
    if record != 2 + 2 * scalars.shape.layers {
        return Err(Refusal::RecordLength);
    }
    Ok(())
}

// Where the list is long enough and every layer is ready, all are sent to; if not, nothing is touched. The
// layers behind the first are judged, then the first is judged and sent to in one go: half of all keys
// reach no other layer.
fn send_if_ready(
    h: Scalars,
    lens: &mut [usize],
    flags: &mut [bool],
    counters: &mut [i64],
    norms: &mut [u64],
    entries: &mut [u64],
    counts: &mut [i64],
    record: &[u64],
    weight: u64,
    first: usize,
    many: usize,
    list: &mut [u64],
) -> bool
    requires judge_ready { JudgeReady (lent (head_of h lens.old flags.old) counters.old norms.old entries.old counts.old) «record».now weight many first }
    requires le_many { 1 ≤ many }
    ensures value { result ≡ leb (2 * h.shape.layers) (length list.old)
        && all_layers (ready_at h.shape «record».now weight) many first (view (lent_in (head_in h lens flags) counters norms entries counts)) }
    ensures sent_all { result ≡ true → SentAll «record».now weight many first (lent_in (head_in h lens flags) counters norms entries counts) (lent_out (head_out h lens flags) counters norms entries counts)
        (zeroed_for h.shape list.old) list.new }
    ensures counts_value { result ≡ false → (lent_out (head_out h lens flags) counters norms entries counts ≡ lent_in (head_in h lens flags) counters norms entries counts)
        × (list.new ≡ list.old) }
{
    if list.len() < 2 * h.shape.layers {
        return false;
    }
    let next = first + 1;
    let rest = many - 1;
    if !all_ready(
        h, &*lens, &*flags, &*counters, &*norms, &*entries, &*counts, record, weight, next, rest,
    ) {
        return false;
    }
    if !send_first(
        h, lens, flags, counters, norms, entries, counts, record, weight, first, list,
    ) {
        return false;
    }
    send(
        h, lens, flags, counters, norms, entries, counts, record, weight, next, rest, list,
    );
    true
}

// The layers that a key reaches, sent to if nothing is refused: 9, 11, then 16 for the list's length.
fn send_judged(
    h: Scalars,
    lens: &mut [usize],
    flags: &mut [bool],
    counters: &mut [i64],
    norms: &mut [u64],
    entries: &mut [u64],
    counts: &mut [i64],
    record: &[u64],
    weight: u64,
    first: usize,
    many: usize,
    list: &mut [u64],
) -> Result<(), Refusal>
    requires judge_ready { JudgeReady (lent (head_of h lens.old flags.old) counters.old norms.old entries.old counts.old) «record».now weight many first }
    requires le_many { 1 ≤ many }
    ensures counts_value { left (refused result) (lent_out (head_out h lens flags) counters norms entries counts)
        ≡ sent_by «record».now weight many first (length list.old) (lent_in (head_in h lens flags) counters norms entries counts) }
    ensures list_after { list.new
        ≡ list_left (refused result) (told_by «record».now weight many first (lent_in (head_in h lens flags) counters norms entries counts)) list.old }
{
    if send_if_ready(
        h, lens, flags, counters, norms, entries, counts, record, weight, first, many, list,
    ) {
        return Ok(());
    }
    check_layers(
        h, &*lens, &*flags, &*counters, &*norms, &*entries, &*counts, record, weight, first, many,
    )?;
    // every layer is ready, so it was the list
    Err(Refusal::TooShort)
}

// A key goes to the layers that its bottom hash says: 9, 11, 16.
fn send_key(
    kind: Kind,
    h: Scalars,
    lens: &mut [usize],
    flags: &mut [bool],
    counters: &mut [i64],
    norms: &mut [u64],
    entries: &mut [u64],
    counts: &mut [i64],
    record: &[u64],
    weight: u64,
    list: &mut [u64],
    bottom_hash: u64,
) -> Result<(), Refusal>
    requires key_ready { KeyReady (lent (head_of h lens.old flags.old) counters.old norms.old entries.old counts.old) «record».now weight }
    requires bottom_hash_value { bottom_hash ≡ bottom_word «record».now }
    ensures counts_value { left (refused result) (lent_out (head_out h lens flags) counters norms entries counts)
        ≡ key_sent kind «record».now weight (length list.old) (lent_in (head_in h lens flags) counters norms entries counts) }
    ensures list_after { list.new
        ≡ list_left (refused result) (key_told kind «record».now weight (lent_in (head_in h lens flags) counters norms entries counts)) list.old }
{
    let bottom = header::bottom_of(bottom_hash, h.shape.layers);
    let first = first_sent(kind, bottom);
    let many = bottom + 1 - first;
    send_judged(
        h, lens, flags, counters, norms, entries, counts, record, weight, first, many, list,
    )
}

// The bottom hash of a record, 0 where there is none. It is read before anything is judged: a record
// seldom lies near the processor, and so it is on its way meanwhile.
pub fn bottom_word(record: &[u64]) -> u64
    ensures { result ≡ bottom_word «record».now }
{
    record.get(1).copied().unwrap_or(0)
}

// Whether an update begins, without what it begins with.
pub fn begins<T: Copy>(begun: Result<T, Refusal>) -> Result<(), Refusal>
    ensures { refused result ≡ refused begun }
{
    begun?;
    Ok(())
}

// All of an update but its beginning; `begins` says whether that is refused. Answers 9, 12, then
// `begins`, then 9, 11, 16.
pub fn update(
    kind: Kind,
    scalars: Scalars,
    begins: Result<(), Refusal>,
    lens: &mut [usize],
    flags: &mut [bool],
    counters: &mut [i64],
    norms: &mut [u64],
    entries: &mut [u64],
    counts: &mut [i64],
    record: &[u64],
    weight: i64,
    list: &mut [u64],
) -> Result<(), Refusal>
    requires { refused begins ≡ 0 → nat_abs weight ≤ top }
    ensures counts_value { left (refused result) (lent_out (head_out scalars lens flags) counters norms entries counts)
        ≡ sent_after kind (refused begins) «record».now weight (length list.old) (lent_in (head_in scalars lens flags) counters norms entries counts) }
    ensures list_after { list.new
        ≡ list_left (refused result) (update_answers kind (view (lent_in (head_in scalars lens flags) counters norms entries counts)) «record».now weight) list.old }
{
    let bottom_hash = bottom_word(record);
    check_sound(
        scalars,
        &*lens,
        &*flags,
        counters.len(),
        norms.len(),
        entries.len(),
        counts.len(),
        record.len(),
    )?;
    begins?;
    send_key(
        kind,
        scalars,
        lens,
        flags,
        counters,
        norms,
        entries,
        counts,
        record,
        words::magnitude(weight),
        list,
        bottom_hash,
    )
}
