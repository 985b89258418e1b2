// What changes nothing: answers, the state check, and whether two relays hold the same.
use crate::Call;
use crate::digest::say;
use crate::heads::{LENS, header_of};
use crate::shelf::{
    CELLS, COUNTERS, COUNTS, ENTRIES, ENTRY_WORDS, LENT_COUNTERS, LENT_COUNTS, LENT_ENTRIES,
    LENT_NORMS, NORM_WORDS, NORMS, SEATS, SECOND, SECOND_COUNTERS, SECOND_NORMS, copy, get, lent,
    take_signed,
};
use header::{Header, Shape};
use refusal::Refusal;
use std::io;
use std::io::Stdout;
use sums::G;

fn print_answer(output: Stdout, a: Result<f64, Refusal>) -> io::Result<()> {
    vectors::print(output, refusal::number_in(&a))?;
    vectors::print(output, float64::to_bits(a.unwrap_or(0.0)))
}

// The g of the k-th sum: each is summed twice, without and with every key.
fn g_of(k: u64) -> G {
    match k / 2 {
        0 => G::One,
        1 => G::Value,
        _ => G::Square,
    }
}

// 11: L1, L2, cardinality, the six sums, and the panel's answer.
fn answers(
    output: Stdout,
    h: Header,
    counters: &[i64],
    norms: &[u64],
    entries: &[u64],
    counts: &[i64],
) -> io::Result<()> {
    print_answer(output, estimates::estimate_l1(h))?;
    print_answer(output, estimates::estimate_l2(h, norms))?;
    print_answer(
        output,
        estimates::estimate_cardinality(h, counters, norms, entries, counts),
    )?;
    for k in 0..6 {
        let every = k % 2 == 1;
        print_answer(
            output,
            estimates::estimate_g_sum(h, counters, norms, entries, counts, g_of(k), every),
        )?;
    }
    let p = estimates::panel_answer(h, counters, norms, entries, counts);
    vectors::print(output, p.refusal)?;
    vectors::print(output, float64::to_bits(p.l1))?;
    vectors::print(output, float64::to_bits(p.l2))?;
    vectors::print(output, float64::to_bits(p.cardinality))
}

// What is asked of the relay at work: its answers, or whether it passes the state check.
#[derive(Clone, Copy)]
pub enum Question {
    Answers,
    Check,
}

// Prints the answers, and answers false; or answers the check.
pub fn ask(output: Stdout, question: Question, shelf: &[u64]) -> io::Result<bool> {
    let c = lent(shelf, 0, LENT_COUNTERS, CELLS);
    let w = lent(shelf, 0, LENT_NORMS, NORM_WORDS);
    let e = lent(shelf, 0, LENT_ENTRIES, ENTRY_WORDS);
    let k = lent(shelf, 0, LENT_COUNTS, SEATS);
    let mut counters = [0i64; CELLS];
    let mut norms = [0u64; NORM_WORDS];
    let mut entries = [0u64; ENTRY_WORDS];
    let mut counts = [0i64; SEATS];
    take_signed(shelf, COUNTERS, &mut counters);
    copy(shelf, NORMS, &mut norms, 0, w);
    copy(shelf, ENTRIES, &mut entries, 0, e);
    take_signed(shelf, COUNTS, &mut counts);
    let h = header_of(shelf, 0);
    let cs = &counters[..c];
    let ws = &norms[..w];
    let es = &entries[..e];
    let ks = &counts[..k];
    match question {
        Question::Answers => {
            answers(output, h, cs, ws, es, ks)?;
            Ok(false)
        }
        Question::Check => Ok(state_check::check_state(h, cs, ws, es, ks)),
    }
}

// Whether the n words from place `a` on are those from place `b` on.
fn alike(shelf: &[u64], a: usize, b: usize, n: usize) -> bool {
    (0..n).all(|i| get(shelf, a, i) == get(shelf, b, i))
}

// 12: whether both relays agree in shape, weight, updates, mode, flags, counters and norms.
pub fn same(shelf: &[u64]) -> bool {
    alike(shelf, 0, SECOND, LENS)
        && alike(shelf, LENT_COUNTERS, SECOND + LENT_COUNTERS, 2)
        && alike(
            shelf,
            COUNTERS,
            SECOND_COUNTERS,
            get(shelf, 0, LENT_COUNTERS) as usize,
        )
        && alike(
            shelf,
            NORMS,
            SECOND_NORMS,
            get(shelf, 0, LENT_NORMS) as usize,
        )
}

// 16: the refusal of a shape.
pub fn shape(output: Stdout, call: Call) -> io::Result<()> {
    let checked = header::check_shape(
        call.a as usize,
        call.b as usize,
        call.c as usize,
        call.d as usize,
    );
    say(output, refusal::number_in(&checked), false, 0)
}

// 20: the refusal of a shape of two tiers.
pub fn two_tier_shape(output: Stdout, call: Call) -> io::Result<()> {
    let checked = Shape::new(
        call.a as usize,
        call.b as usize,
        call.c as usize,
        call.d as usize,
        call.e as usize,
        call.f as usize,
        call.g as usize,
    );
    say(output, refusal::number_in(&checked), false, 0)
}

// 17: a bottom layer, or its refusal.
pub fn bottom(output: Stdout, call: Call) -> io::Result<()> {
    match header::bottom_layer_for_hash(call.a, call.b as usize) {
        Ok(l) => say(output, 0, false, l as u64),
        Err(refusal) => say(output, refusal.number(), false, 0),
    }
}
