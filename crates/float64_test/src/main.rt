// Runs the functions of `float64` on stored values and prints what they answer; what the original
// Rust answers is stored beside them (oracle/float64.py makes both).
//
// The input is groups, one for each function: its number, how many cases follow, and their words.

#![tactic(auto)]

use std::io;
use std::io::{Stdin, Stdout};

// The answer to a case, as a word.
fn answer(function: u64, a: u64, b: u64, c: u64) -> u64 {
    let x = float64::from_bits(a);
    match function {
        1 => float64::to_bits(float64::sqrt(x)),
        2 => vectors::unsigned(float64::to_i64(x)),
        3 => float64::to_bits(float64::norm_to_f64(a)),
        4 => float64::to_bits(float64::count_to_f64(vectors::signed(a))),
        5 => float64::to_bits(float64::norm_read(a, b)),
        6 => float64::to_bits(float64::middle(x, float64::from_bits(b))),
        7 => vectors::unsigned(float64::heavy_threshold(x, b as usize, c == 1)),
        _ => float64::sqrt_counted(x).count,
    }
}

// How many words a case has.
fn width(function: u64) -> usize {
    match function {
        5 | 6 => 2,
        7 => 3,
        _ => 1,
    }
}

// One case; false where the input ends.
fn case(input: Stdin, output: Stdout, function: u64) -> io::Result<bool> {
    let mut text = [0u8; 51];
    if !vectors::read(input, &mut text, width(function)) {
        return Ok(false);
    }
    let a = vectors::word(&text, 0);
    let b = vectors::word(&text, 1);
    let c = vectors::word(&text, 2);
    vectors::print(output, answer(function, a, b, c))?;
    Ok(true)
}

// One group; false where the input ends.
fn group(input: Stdin, output: Stdout) -> io::Result<bool> {
    let mut text = [0u8; 34];
    if !vectors::read(input, &mut text, 2) {
        return Ok(false);
    }
    let function = vectors::word(&text, 0);
    for _ in 0..vectors::word(&text, 1) {
        if !case(input, output, function)? {
            return Ok(false);
        }
    }
    Ok(true)
}

fn main(rt: HostRuntime) -> io::Result<()> {
    let input = rt.stdin();
    let output = rt.stdout();
    for _ in 0..8 {
        if !group(input, output)? {
            return Ok(());
        }
    }
    Ok(())
}
