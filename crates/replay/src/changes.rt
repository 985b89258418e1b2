// The calls that change a relay. Each says the refusal's number, whether what is left passes the state check,
// and a digest of it all, with the list that the call was lent.
use crate::Call;
use crate::asked::{Question, ask};
use crate::digest::{of_words, say, whole};
use crate::heads::{HEAD_WORDS, header_of, words_of};
use crate::shelf::{
    CELLS, COUNTERS, COUNTS, ENTRIES, ENTRY_WORDS, KEPT_RECORDS, LENT_COUNTERS, LENT_COUNTS,
    LENT_ENTRIES, LENT_LIST, LENT_NORMS, LIST_WORDS, NORM_WORDS, NORMS, RECORD_WORDS, RECORDS,
    SEATS, SECOND, SECOND_COUNTERS, SECOND_COUNTS, SECOND_ENTRIES, SECOND_NORMS, WORDS, copy, lent,
    put_signed, take_signed,
};
use header::Header;
use refusal::Refusal;
use std::io;
use std::io::Stdout;
use univmon_delta::Fidelity;

// The calls that change a relay.
#[derive(Clone, Copy)]
pub enum Change {
    New,
    NewTwoTier,
    SetTotalWeight,
    MarkLayer,
    MarkAll,
    Clear,
    Merge,
    OnRecord(OnRecord),
}

// Those that take a record. The call gives the number of a kept record, and how many words of it are lent.
#[derive(Clone, Copy)]
pub enum OnRecord {
    Update,
    TerminalUpdate,
    Delta,
}

// A call's record may have more words than any shape asks for.
const LONGEST: usize = 2 * RECORD_WORDS;

fn fidelity(n: u64) -> Fidelity {
    match n {
        0 => Fidelity::EveryInsert,
        _ => Fidelity::PromotedOnly,
    }
}

// The count of a delta, from its two's complement.
fn count_of(n: u64) -> i32 {
    let low = (n % 0x1_0000_0000) as u32;
    low.cast_signed()
}

// Where record number a starts.
pub fn record_at(a: u64) -> usize {
    (a % KEPT_RECORDS) as usize * RECORD_WORDS + RECORDS
}

// What a list holds before its call, so that every word that is written or left can be told: the greatest
// number, and down from it.
fn mark(list: &mut [u64]) {
    for (i, word) in list.iter_mut().enumerate() {
        *word = u64::MAX - i as u64;
    }
}

// An update or a delta with a kept record.
fn recorded(
    kind: OnRecord,
    call: Call,
    h: Header,
    counters: &mut [i64],
    norms: &mut [u64],
    entries: &mut [u64],
    counts: &mut [i64],
    list: &mut [u64],
    shelf: &[u64],
) -> Result<Header, Refusal> {
    let mut record = [0u64; LONGEST];
    copy(shelf, record_at(call.a), &mut record, 0, LONGEST);
    let n = lent(shelf, WORDS, 1, LONGEST);
    let words = &record[..n];
    let weight = vectors::signed(call.c);
    match kind {
        OnRecord::Update => {
            univmon::update_weighted(h, counters, norms, entries, counts, words, weight, list)
        }
        OnRecord::TerminalUpdate => univmon::update_weighted_terminal(
            h, counters, norms, entries, counts, words, weight, list,
        ),
        OnRecord::Delta => univmon_delta::apply_delta(
            h,
            counters,
            norms,
            entries,
            counts,
            words,
            call.c as usize,
            call.d as usize,
            call.e as usize,
            count_of(call.f),
            fidelity(call.g),
            list,
        ),
    }
}

// Merges the second relay into the one at work.
fn merge(
    h: Header,
    counters: &mut [i64],
    norms: &mut [u64],
    entries: &mut [u64],
    counts: &mut [i64],
    list: &mut [u64],
    shelf: &[u64],
) -> Result<Header, Refusal> {
    let c = lent(shelf, SECOND, LENT_COUNTERS, CELLS);
    let w = lent(shelf, SECOND, LENT_NORMS, NORM_WORDS);
    let e = lent(shelf, SECOND, LENT_ENTRIES, ENTRY_WORDS);
    let k = lent(shelf, SECOND, LENT_COUNTS, SEATS);
    let mut other_counters = [0i64; CELLS];
    let mut other_norms = [0u64; NORM_WORDS];
    let mut other_entries = [0u64; ENTRY_WORDS];
    let mut other_counts = [0i64; SEATS];
    take_signed(shelf, SECOND_COUNTERS, &mut other_counters);
    copy(shelf, SECOND_NORMS, &mut other_norms, 0, w);
    copy(shelf, SECOND_ENTRIES, &mut other_entries, 0, e);
    take_signed(shelf, SECOND_COUNTS, &mut other_counts);
    univmon_merge::merge(
        h,
        counters,
        norms,
        entries,
        counts,
        header_of(shelf, SECOND),
        &other_counters[..c],
        &other_norms[..w],
        &other_entries[..e],
        &other_counts[..k],
        list,
    )
}

// Fills the lent slices from the shelf, marks the list and makes a call on them.
fn on_lent(
    change: Change,
    call: Call,
    counters: &mut [i64],
    norms: &mut [u64],
    entries: &mut [u64],
    counts: &mut [i64],
    list: &mut [u64],
    shelf: &[u64],
) -> Result<Header, Refusal> {
    take_signed(shelf, COUNTERS, counters);
    copy(shelf, NORMS, norms, 0, NORM_WORDS);
    copy(shelf, ENTRIES, entries, 0, ENTRY_WORDS);
    take_signed(shelf, COUNTS, counts);
    mark(list);
    let h = header_of(shelf, 0);
    match change {
        Change::New => univmon::new(
            call.a as usize,
            call.b as usize,
            call.c as usize,
            call.d as usize,
            counters,
            norms,
            entries,
            counts,
        ),
        Change::NewTwoTier => univmon::new_two_tier(
            call.a as usize,
            call.b as usize,
            call.c as usize,
            call.d as usize,
            call.e as usize,
            call.f as usize,
            call.g as usize,
            counters,
            norms,
            entries,
            counts,
        ),
        Change::SetTotalWeight => univmon::set_total_weight(h, call.a),
        Change::MarkLayer => univmon::mark_layer_candidates_incomplete(h, call.a as usize),
        Change::MarkAll => univmon::mark_candidates_incomplete(h),
        Change::Clear => univmon::clear(h, counters, norms, entries, counts),
        Change::Merge => merge(h, counters, norms, entries, counts, list, shelf),
        Change::OnRecord(kind) => recorded(
            kind, call, h, counters, norms, entries, counts, list, shelf,
        ),
    }
}

// The header that a refused call leaves: as it was, but a new state's is all zero.
fn left_by(change: Change, shelf: &[u64]) -> Header {
    match change {
        Change::New | Change::NewTwoTier => Header::zero(),
        _ => header_of(shelf, 0),
    }
}

// Runs a call on the relay at work: its slices are taken off the shelf, lent, and put back.
pub fn run(output: Stdout, change: Change, call: Call, shelf: &mut [u64]) -> io::Result<()> {
    let c = lent(&*shelf, 0, LENT_COUNTERS, CELLS);
    let w = lent(&*shelf, 0, LENT_NORMS, NORM_WORDS);
    let e = lent(&*shelf, 0, LENT_ENTRIES, ENTRY_WORDS);
    let k = lent(&*shelf, 0, LENT_COUNTS, SEATS);
    let n = lent(&*shelf, WORDS, LENT_LIST, LIST_WORDS);
    let mut counters = [0i64; CELLS];
    let mut norms = [0u64; NORM_WORDS];
    let mut entries = [0u64; ENTRY_WORDS];
    let mut counts = [0i64; SEATS];
    let mut list = [0u64; LIST_WORDS];
    let out = on_lent(
        change,
        call,
        &mut counters[..c],
        &mut norms[..w],
        &mut entries[..e],
        &mut counts[..k],
        &mut list[..n],
        &*shelf,
    );
    put_signed(&counters, shelf, COUNTERS, c);
    copy(&norms, 0, shelf, NORMS, w);
    copy(&entries, 0, shelf, ENTRIES, e);
    put_signed(&counts, shelf, COUNTS, k);
    let header = out.unwrap_or(left_by(change, &*shelf));
    let words = words_of(header);
    copy(&words, 0, shelf, 0, HEAD_WORDS);
    let digest = of_words(whole(&*shelf), &list, 0, n);
    say(
        output,
        refusal::number_in(&out),
        ask(output, Question::Check, &*shelf)?,
        digest,
    )
}
