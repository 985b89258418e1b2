// A line, answered.
ghost use Rattle.refusal.specs.Refusals.{refused};
ghost use Rattle.std.specs.Prelude.{◌≡◌, [], ◌∷◌, ◌++◌, ℕ, ◌≤◌, length};
ghost use Rattle.std.proofs.lemmas.List.Edits.{sets};
ghost use Rattle.layout.specs.Lending.{lent_in, lent_out};
ghost use Rattle.panel_step.specs.Panel.{shape_call, add_call, show_line, reply_text, replied, reply, found, put, longest, answer_within};
ghost use Rattle.layout.specs.Slices.{lent};

use crate::LineAnswered;
use crate::calls::{add, show, start};
use header::{Header, Shape};
use panel_lines::answer::{SHOW_BARE, put_ok, put_refused};
use panel_lines::line::{LINE_WORDS, Request, read_line};
use refusal::Refusal;
use text::word::put_word;

// The decimal digits of 2^52, the greatest number of updates.
const UPDATES_DIGITS: usize = 16;

// The longest answer, with its newline: `(show ..)` of the most layers and updates.
pub const LONGEST: usize = SHOW_BARE + 2 * Shape::MAX_LAYERS + UPDATES_DIGITS + 1;

// `(ok)`, or `(refused N)` with a refusal's number, and a newline.
fn put_reply(out: &mut [u8], answer: Result<Header, Refusal>) -> usize
    requires { longest ≤ length out.old }
    ensures value { result ≡ length (reply_text (refused answer) ++ (10 ∷ [])) }
    ensures out_after { out.new ≡ sets out.old 0 (reply_text (refused answer) ++ (10 ∷ [])) }
    ensures upper_bound { result ≤ longest }
{
    let end = match answer {
        Ok(_) => put_ok(out),
        Err(refusal) => put_refused(out, refusal.number()),
    };
    put_word(out, end, b"\n")
}

fn answer_shape(
    header: Header,
    counters: &mut [i64],
    norms: &mut [u64],
    entries: &mut [u64],
    counts: &mut [i64],
    shape: Shape,
    out: &mut [u8],
) -> LineAnswered
    requires { longest ≤ length out.old }
    ensures out_after { found (lent_out result.header counters norms entries counts) result.len out.new
        ≡ put (replied (shape_call (lent_in header counters norms entries counts) shape)) out.old }
    ensures len_le_longest { result.len ≤ longest }
{
    let a = start(header, counters, norms, entries, counts, shape);
    let len = put_reply(out, a);
    LineAnswered {
        header: a.unwrap_or(header),
        len,
    }
}

fn answer_add(
    header: Header,
    counters: &mut [i64],
    norms: &mut [u64],
    entries: &mut [u64],
    counts: &mut [i64],
    record: &[u64],
    weight: i64,
    out: &mut [u8],
) -> LineAnswered
    requires { longest ≤ length out.old }
    ensures out_after { found (lent_out result.header counters norms entries counts) result.len out.new
        ≡ put (replied (add_call (lent_in header counters norms entries counts) «record».now weight)) out.old }
    ensures len_le_longest { result.len ≤ longest }
{
    let a = add(header, counters, norms, entries, counts, record, weight);
    let len = put_reply(out, a);
    LineAnswered {
        header: a.unwrap_or(header),
        len,
    }
}

fn answer_show(
    header: Header,
    counters: &[i64],
    norms: &[u64],
    entries: &[u64],
    counts: &[i64],
    out: &mut [u8],
) -> LineAnswered
    requires { longest ≤ length out.old }
    ensures out_after { found (lent result.header counters.now norms.now entries.now counts.now) result.len out.new
        ≡ put (reply (lent header counters.now norms.now entries.now counts.now) (show_line (lent header counters.now norms.now entries.now counts.now))) out.old }
    ensures len_le_longest { result.len ≤ longest }
{
    let k = show(header, counters, norms, entries, counts, out);
    let len = put_word(out, k, b"\n");
    LineAnswered { header, len }
}

// Answers a line: its answer and a newline go to the start of `out`, if that has room for the longest one.
pub fn answer_line(
    line: &[u8],
    header: Header,
    counters: &mut [i64],
    norms: &mut [u64],
    entries: &mut [u64],
    counts: &mut [i64],
    out: &mut [u8],
) -> LineAnswered
    ensures out_after { found (lent_out result.header counters norms entries counts) result.len out.new
        ≡ put (answer_within (length out.old) (lent_in header counters norms entries counts) line.now) out.old }
    ensures len_le_longest { result.len ≤ longest }
{
    if out.len() < LONGEST {
        return LineAnswered { header, len: 0 };
    }
    let mut words = [0u64; LINE_WORDS];
    let q = read_line(line, &mut words);
    match q {
        Request::Shape(heap_size, rows, cols, layers) => {
            let shape = Shape::one_tier(
                heap_size as usize,
                rows as usize,
                cols as usize,
                layers as usize,
            );
            answer_shape(header, counters, norms, entries, counts, shape, out)
        }
        Request::Add(weight, n) => {
            let spelt = &words[..n];
            answer_add(header, counters, norms, entries, counts, spelt, weight, out)
        }
        Request::Show => answer_show(header, counters, norms, entries, counts, out),
        Request::Unreadable => {
            let len = put_reply(out, Err(Refusal::Unreadable));
            LineAnswered { header, len }
        }
    }
}
