// A whole state as one number, and what a call that changes it says.
use crate::heads::HEAD_WORDS;
use crate::shelf::{
    COUNTERS, COUNTS, ENTRIES, LENT_COUNTERS, LENT_COUNTS, LENT_ENTRIES, LENT_NORMS, NORMS, get,
};
use std::io;
use std::io::Stdout;

// The digest of n words from place `at` on, behind those that have the digest `start`.
pub fn of_words(start: u64, words: &[u64], at: usize, n: usize) -> u64 {
    (0..n).fold(start, |d, i| vectors::mixed(d, get(words, at, i)))
}

// The digest of the relay at work: its header, and as much of each slice as is lent.
pub fn whole(shelf: &[u64]) -> u64 {
    let a = of_words(0, shelf, 0, HEAD_WORDS);
    let b = of_words(a, shelf, COUNTERS, get(shelf, 0, LENT_COUNTERS) as usize);
    let c = of_words(b, shelf, NORMS, get(shelf, 0, LENT_NORMS) as usize);
    let d = of_words(c, shelf, ENTRIES, get(shelf, 0, LENT_ENTRIES) as usize);
    of_words(d, shelf, COUNTS, get(shelf, 0, LENT_COUNTS) as usize)
}

// A refusal's number in the top byte, 1 below it where the state passes the check, and a digest.
pub fn say(output: Stdout, refusal: u64, sound: bool, digest: u64) -> io::Result<()> {
    if 255 < refusal {
        return Ok(());
    }
    vectors::print(
        output,
        refusal * 0x100_0000_0000_0000
            + u64::from(sound) * 0x1_0000_0000_0000
            + digest % vectors::PRIME,
    )
}
