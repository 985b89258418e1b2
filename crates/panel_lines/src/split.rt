// Lines out of chunks of input.
ghost use Rattle.std.specs.Prelude.{◌≡◌, ℕ, min, ◌+◌, ◌≤◌, length, take, drop};
ghost use Rattle.panel_lines.specs.Split.{most_held, push};
ghost use Rattle.panel_lines.specs.inner.Steps.{stepped, step_of};

use crate::line::LONGEST_LINE;

// The bytes that are held of a line: one more than a line may have, so that a longer one is known to be
// unreadable.
pub const MOST_HELD: usize = LONGEST_LINE + 1;

// Where a chunk was left, how many bytes of the line are held, and whether the line ended.
#[derive(Clone, Copy)]
pub struct Step {
    pub next: usize,
    pub held: usize,
    pub ended: bool,
}

// Holds one more byte, if there is room.
fn keep(line: &mut [u8], n: usize, b: u8) -> usize
    requires n_le_most_held { n ≤ most_held }
    requires most_held_in_bounds { most_held ≤ length line.old }
    ensures upper_bound { (result ≤ most_held) × (length line.new ≡ length line.old) }
    ensures line_after { take result line.new ≡ push (take n line.old) b }
{
    if n < MOST_HELD {
        line[n] = b;
        return n + 1;
    }
    n
}

// Takes bytes from a place on into the line, up to a newline or the chunk's end. Of a line no more than
// `MOST_HELD` bytes are held; what the slice holds past the held bytes is left open.
pub fn take_line(chunk: &[u8], at: usize, line: &mut [u8], held: usize) -> Step
    requires at_in_bounds { at ≤ length chunk.now }
    requires held_le_most_held { held ≤ most_held }
    requires most_held_in_bounds { most_held ≤ length line.old }
    ensures held_le_most_held_2 { (result.held ≤ most_held) × ((min (at + 1) (length chunk.now) ≤ result.next) × ((result.next ≤ length chunk.now) × (length line.new ≡ length line.old))) }
    ensures ended_after { stepped (take result.held line.new) result.next result.ended ≡ step_of (take held line.old) at (drop at chunk.now) }
{
    let mut n = held;
    for i in at..chunk.len() {
        let b = chunk[i];
        if b == b'\n' {
            return Step {
                next: i + 1,
                held: n,
                ended: true,
            };
        }
        n = keep(line, n, b);
    }
    Step {
        next: chunk.len(),
        held: n,
        ended: false,
    }
}
