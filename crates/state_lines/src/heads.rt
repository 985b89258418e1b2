// The first lines, and the line of a flag.
ghost use Rattle.std.specs.Prelude.{◌≡◌, ℕ, ◌<◌, length, drop};
ghost use Rattle.state_forms.specs.Grammar.{first_format, num_line, head_format, flag_format};
ghost use Rattle.state_lines.specs.inner.Places.{first_spot, value_spot, head_spot};

use crate::parts::{layer_at, number_at, word_at};

// What the first line says.
#[derive(Clone, Copy)]
pub struct FirstLine {
    pub heap: u64,
    pub rows: u64,
    pub cols: u64,
    pub layers: u64,
}

// `(univmon HEAP ROWS COLS LAYERS)` and a newline, at a place.
#[tactic(auto, unfolding(state_forms::specs::Formats::then_read, text::specs::Decimals::is_digit))]
pub fn first_at(s: &[u8], at: usize) -> Option<(FirstLine, usize)>
    ensures { first_spot s.now result ≡ first_format.read (drop at s.now) }
{
    let p = word_at(s, at, b"(univmon ")?;
    let (heap, p) = number_at(s, p, b' ')?;
    let (rows, p) = number_at(s, p, b' ')?;
    let (cols, p) = number_at(s, p, b' ')?;
    let (layers, p) = number_at(s, p, b')')?;
    let end = word_at(s, p, b"\n")?;
    let line = FirstLine {
        heap,
        rows,
        cols,
        layers,
    };
    Some((line, end))
}

// `(WORD N)` and a newline, with a number up to a bound.
#[tactic(auto, unfolding(state_forms::specs::Formats::then_read, text::specs::Decimals::is_digit))]
fn line_at(s: &[u8], at: usize, word: &[u8], most: u64) -> Option<(u64, usize)>
    requires { 0 < length word.now }
    ensures { value_spot s.now result ≡ (num_line word.now most).read (drop at s.now) }
{
    let p = word_at(s, at, word)?;
    let (n, p) = number_at(s, p, b')')?;
    if most < n {
        return None;
    }
    let end = word_at(s, p, b"\n")?;
    Some((n, end))
}

// Weight, updates and mode, as their lines say them.
#[derive(Clone, Copy)]
pub struct HeadLines {
    pub weight: u64,
    pub updates: u64,
    pub mode: u64,
}

// `(weight W)`, `(updates U)`, `(mode M)`, at a place. The number of updates has the weight's bound.
#[tactic(auto, unfolding(state_forms::specs::Formats::then_read, text::specs::Decimals::is_digit))]
pub fn head_at(s: &[u8], at: usize) -> Option<(HeadLines, usize)>
    ensures { head_spot s.now result ≡ head_format.read (drop at s.now) }
{
    let (weight, p) = line_at(s, at, b"(weight ", words::MAX_WEIGHT)?;
    let (updates, p) = line_at(s, p, b"(updates ", words::MAX_WEIGHT)?;
    let (mode, end) = line_at(s, p, b"(mode ", 2)?;
    let lines = HeadLines {
        weight,
        updates,
        mode,
    };
    Some((lines, end))
}

// `(flag L F)` and a newline, at a place: a layer's flag.
#[tactic(auto, unfolding(state_forms::specs::Formats::then_read, text::specs::Decimals::is_digit))]
pub fn flag_at(s: &[u8], at: usize, l: usize) -> Option<(bool, usize)>
    ensures { value_spot s.now result ≡ (flag_format l).read (drop at s.now) }
{
    let p = word_at(s, at, b"(flag ")?;
    let p = layer_at(s, p, l)?;
    let (f, p) = number_at(s, p, b')')?;
    if 1 < f {
        return None;
    }
    let end = word_at(s, p, b"\n")?;
    Some((f == 1, end))
}
