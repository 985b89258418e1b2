// Runs stored calls on whole states and prints what they answer and leave: `stdout` holds what the oracle
// and, where it cannot be asked, the definitions of oracle/model.py say. A line of `stdin` is an operation,
// the number of its words, and the words. Operations 1 to 9 and 19 change the relay at work.

#![tactic(auto)]

mod asked;
mod changes;
mod digest;
mod heads;
mod shelf;

use crate::asked::Question;
use crate::changes::{Change, OnRecord, record_at};
use crate::shelf::{
    ALL, CALL_WORDS, COUNTERS, COUNTS, ENTRIES, NORMS, PLACE, PLACES, SECOND, WORDS, get, set,
    shift,
};
use std::io;
use std::io::{Stdin, Stdout};

// What a line asks for: a change of the relay at work, or what its number in `operation_of` says.
#[derive(Clone, Copy)]
pub enum Operation {
    Change(Change),
    SetWord,
    Answers,
    Same,
    CopyPlace,
    KeepRecord,
    CopySecond,
    Shape,
    BottomLayer,
    Check,
    TwoTierShape,
}

// An operation and its first seven words.
#[derive(Clone, Copy)]
pub struct Call {
    pub op: Operation,
    pub a: u64,
    pub b: u64,
    pub c: u64,
    pub d: u64,
    pub e: u64,
    pub f: u64,
    pub g: u64,
}

// 10: a word of the relay at work is set by hand. 12: whether it holds what the second one holds. 13: the relay in
// place a is copied to place b. 14: b words of the call are kept as record number a. 15: the relay in place a is
// copied to be the second one. 18: the state check. 0 is none: it is the end of the input. A number that is no
// operation's is run as 2, a standard update.
fn operation_of(n: u64) -> Option<Operation> {
    match n {
        0 => None,
        1 => Some(Operation::Change(Change::New)),
        3 => Some(Operation::Change(Change::OnRecord(OnRecord::TerminalUpdate))),
        4 => Some(Operation::Change(Change::OnRecord(OnRecord::Delta))),
        5 => Some(Operation::Change(Change::SetTotalWeight)),
        6 => Some(Operation::Change(Change::MarkLayer)),
        7 => Some(Operation::Change(Change::MarkAll)),
        8 => Some(Operation::Change(Change::Clear)),
        9 => Some(Operation::Change(Change::Merge)),
        10 => Some(Operation::SetWord),
        11 => Some(Operation::Answers),
        12 => Some(Operation::Same),
        13 => Some(Operation::CopyPlace),
        14 => Some(Operation::KeepRecord),
        15 => Some(Operation::CopySecond),
        16 => Some(Operation::Shape),
        17 => Some(Operation::BottomLayer),
        18 => Some(Operation::Check),
        19 => Some(Operation::Change(Change::NewTwoTier)),
        20 => Some(Operation::TwoTierShape),
        _ => Some(Operation::Change(Change::OnRecord(OnRecord::Update))),
    }
}

// Reads a line and puts its words on the shelf; no call at the end of the input.
fn read(input: Stdin, shelf: &mut [u64]) -> Option<Call> {
    let mut text = [0u8; 17 * CALL_WORDS];
    let line = vectors::next(input, &mut text);
    for k in 0..CALL_WORDS {
        set(shelf, WORDS, k, vectors::word(&text, k));
    }
    let op = operation_of(line.op)?;
    Some(call_of(op, &*shelf))
}

fn call_of(op: Operation, shelf: &[u64]) -> Call {
    Call {
        op,
        a: get(shelf, WORDS, 0),
        b: get(shelf, WORDS, 1),
        c: get(shelf, WORDS, 2),
        d: get(shelf, WORDS, 3),
        e: get(shelf, WORDS, 4),
        f: get(shelf, WORDS, 5),
        g: get(shelf, WORDS, 6),
    }
}

// Where a part of the relay at work starts: 0 is the header with how much of each slice is lent, the others
// are the slices.
fn slice_at(n: u64) -> usize {
    match n {
        0 => 0,
        1 => COUNTERS,
        2 => NORMS,
        3 => ENTRIES,
        _ => COUNTS,
    }
}

// Where the n-th place starts.
fn place_at(n: u64) -> usize {
    (n % PLACES) as usize * PLACE
}

// One operation.
fn turn(output: Stdout, call: Call, shelf: &mut [u64]) -> io::Result<()> {
    match call.op {
        Operation::Change(change) => changes::run(output, change, call, shelf)?,
        Operation::SetWord => set(shelf, slice_at(call.a), call.b as usize, call.c),
        Operation::Answers => {
            asked::ask(output, Question::Answers, &*shelf)?;
        }
        Operation::Same => vectors::print_flag(output, asked::same(&*shelf))?,
        Operation::CopyPlace => shift(shelf, place_at(call.a), place_at(call.b), PLACE),
        Operation::KeepRecord => shift(shelf, WORDS + 2, record_at(call.a), call.b as usize),
        Operation::CopySecond => shift(shelf, place_at(call.a), SECOND, PLACE),
        Operation::Shape => asked::shape(output, call)?,
        Operation::BottomLayer => asked::bottom(output, call)?,
        Operation::Check => {
            vectors::print_flag(output, asked::ask(output, Question::Check, &*shelf)?)?
        }
        Operation::TwoTierShape => asked::two_tier_shape(output, call)?,
    }
    Ok(())
}

fn serve(input: Stdin, output: Stdout, shelf: &mut [u64]) -> io::Result<()> {
    for _ in 0..1000000 {
        let Some(call) = read(input, shelf) else {
            break;
        };
        turn(output, call, shelf)?;
    }
    Ok(())
}

fn main(rt: HostRuntime) -> io::Result<()> {
    let mut shelf = [0u64; ALL];
    serve(rt.stdin(), rt.stdout(), &mut shelf)
}
