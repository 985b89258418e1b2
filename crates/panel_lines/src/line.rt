// A whole line, and what it asks.
ghost use Rattle.std.specs.Prelude.{◌≡◌, Bool, ℕ, ◌+◌, ◌*◌, ◌≤◌, length, unwrap_or};
ghost use Rattle.std.proofs.lemmas.List.Edits.{sets};
ghost use Rattle.panel_lines.specs.declared.line.Request.TheVariants.{Unreadable};
ghost use Rattle.panel_lines.specs.Line.{longest_line, line_words, pair_ok_at, all_pairs, tail_at, halves, read_shape, read_add, read_of};

use text::decimals::field;
use text::hex::{hex_ok, hex_value};
use text::signed::signed_field;
use text::word::has_word;

// The bytes of the longest line that is read, its newline not counted.
pub const LONGEST_LINE: usize = 1024;

// The most words that such a line spells: key, bottom hash, and two for each pair. A pair has 36 bytes, and
// an `add` without its pairs has 24 at least.
pub const LINE_WORDS: usize = 2 + 2 * ((LONGEST_LINE - 24) / 36);

// What a line asks. `Shape` has heap, rows, cols and layers; `Add` has the weight and the number of its words.
// `Unreadable` is one of them and not `None`, since the definitions `answer_to` and `log_after` speak of it.
#[derive(Clone, Copy)]
pub enum Request {
    Shape(u64, u64, u64, u64),
    Add(i64, usize),
    Show,
    Unreadable,
}

// Whether ` (HI LO)` stands at a place.
#[tactic(auto, unfolding(crate::specs::Line::pair_ok_at))]
fn pair_ok(s: &[u8], at: usize) -> bool
    requires { at + 36 ≤ length s.now }
    ensures { result ≡ pair_ok_at s.now at }
{
    s[at] == b' '
        && s[at + 1] == b'('
        && hex_ok(s, at + 2)
        && s[at + 18] == b' '
        && hex_ok(s, at + 19)
        && s[at + 35] == b')'
}

// Whether n pairs stand from a place on.
fn all_pairs(s: &[u8], at: usize, n: usize) -> bool
    requires n_in_bounds { at + 36 * n ≤ length s.now }
    requires s_len_bound { length s.now ≤ longest_line }
    ensures { result ≡ all_pairs s.now at n }
{
    for k in 0..n {
        if !pair_ok(s, at + 36 * k) {
            return false;
        }
    }
    true
}

// How many pairs stand from a place on, and the bracket that ends the line. A pair has 36 bytes, so that
// the length of what is left tells how many there have to be.
#[tactic(auto, unfolding(crate::specs::Line::tail_at))]
fn read_tail(s: &[u8], at: usize) -> Option<usize>
    requires { length s.now ≤ longest_line }
    ensures { result ≡ tail_at s.now at }
{
    if s.len() <= at {
        return None;
    }
    let rest = s.len() - at - 1;
    let n = rest / 36;
    if rest % 36 != 0 || !all_pairs(s, at, n) || s[s.len() - 1] != b')' {
        return None;
    }
    Some(n)
}

// Puts the halves of n pairs into the words, after key and bottom hash.
fn fill(s: &[u8], at: usize, n: usize, words: &mut [u64])
    requires n_in_bounds { at + 36 * n ≤ length s.now }
    requires s_len_bound { length s.now ≤ longest_line }
    requires n_in_bounds_2 { 2 + 2 * n ≤ length words.old }
    ensures { words.new ≡ sets words.old 2 (halves s.now at n) }
{
    for k in 0..n {
        let p = at + 36 * k;
        words[2 * k + 2] = hex_value(s, p + 2);
        words[2 * k + 3] = hex_value(s, p + 19);
    }
}

// A line that begins with `(shape `.
#[tactic(auto, unfolding(crate::specs::Line::read_shape))]
fn shape_line(s: &[u8]) -> Option<Request>
    ensures { unwrap_or result Unreadable ≡ (read_shape s.now).request }
{
    let (heap, i) = field(s, 7, b' ')?;
    let (rows, j) = field(s, i, b' ')?;
    let (cols, k) = field(s, j, b' ')?;
    let (layers, end) = field(s, k, b')')?;
    if end != s.len() {
        return None;
    }
    Some(Request::Shape(heap, rows, cols, layers))
}

// A line that begins with `(add `. The words are changed only after the whole line is known to be right.
#[tactic(auto, unfolding(crate::specs::Line::read_add))]
fn add_line(s: &[u8], words: &mut [u64]) -> Option<Request>
    requires s_len_bound { length s.now ≤ longest_line }
    requires line_words_in_bounds { line_words ≤ length words.old }
    ensures value { unwrap_or result Unreadable ≡ (read_add s.now).request }
    ensures words_after { words.new ≡ sets words.old 0 (read_add s.now).words }
{
    let (key, i) = field(s, 5, b' ')?;
    let (weight, j) = signed_field(s, i, b' ')?;
    if !hex_ok(s, j) {
        return None;
    }
    let p = j + 16;
    let n = read_tail(s, p)?;
    words[0] = key;
    words[1] = hex_value(s, j);
    fill(s, p, n, words);
    Some(Request::Add(weight, 2 + 2 * n))
}

// What a line asks, and for an `add` its words at the start of `words`: key, bottom hash, halves.
// `LINE_WORDS` words are enough.
pub fn read_line(s: &[u8], words: &mut [u64]) -> Request
    requires { line_words ≤ length words.old }
    ensures value { result ≡ (read_of s.now).request }
    ensures words_after { words.new ≡ sets words.old 0 (read_of s.now).words }
{
    if LONGEST_LINE < s.len() {
        return Request::Unreadable;
    }
    if has_word(s, 0, b"(shape ") {
        return shape_line(s).unwrap_or(Request::Unreadable);
    }
    if has_word(s, 0, b"(add ") {
        return add_line(s, words).unwrap_or(Request::Unreadable);
    }
    if s.len() != 6 {
        return Request::Unreadable;
    }
    if has_word(s, 0, b"(show)") {
        return Request::Show;
    }
    Request::Unreadable
}
