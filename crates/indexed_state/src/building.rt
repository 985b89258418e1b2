// The index built from the entries: it follows `new`, `clear` and a text that is read.
ghost use Rattle.refusal.specs.Refusals.{refused};
ghost use Rattle.std.specs.Prelude.{◌≡◌, ℕ, ◌<◌, length};
ghost use Rattle.words.specs.Tests.{number};
ghost use Rattle.layout_index.specs.Tables.{put_table, index_left};
ghost use Rattle.indexed_state.specs.Building.{build_tests, built_table, built_index};
ghost use Rattle.indexed_state.specs.inner.Needs.{Buildable};

use header::Header;
use layout::words_at;
use layout_index::{table_span, tables_in};
use refusal::Refusal;

// Layer l's table is built anew. No count is read: zeros stand for them.
fn build_table(header: Header, entries: &[u64], index: &mut [u64], l: usize)
    requires buildable { Buildable header (length entries.now) (length index.old) }
    requires l_lt_layers { l < header.shape.layers }
    ensures { index.new ≡ put_table header.shape index.old l (built_table header entries.now l) }
{
    let shape = header.shape;
    let zeros = [0i64; heap_moves::MAX_HEAP_SIZE];
    let size = shape.heap_size;
    let s = table_span(shape, l);
    let a = s.start;
    let e = s.end;
    let lens = header.lens;
    heap_index::build(
        &mut index[a..e],
        words_at(shape, l, entries),
        &zeros[..size],
        lens[l],
    );
}

// Every layer's table.
fn build_tables(header: Header, entries: &[u64], index: &mut [u64])
    requires { Buildable header (length entries.now) (length index.old) }
    ensures { index.new ≡ built_index header entries.now index.old }
{
    for l in 0..header.shape.layers {
        build_table(header, entries, index, l);
    }
}

// Whether a header is in range, and entries and index are its shape's: 9.
fn check_build(header: Header, entries: &[u64], index: usize) -> Result<(), Refusal>
    ensures { refused result ≡ number (build_tests header entries.now index) }
{
    if !header.in_range() {
        return Err(Refusal::OutOfRange);
    }
    let shape = header.shape;
    let e = layout::extent_of(shape);
    if entries.len() != e.words {
        return Err(Refusal::OutOfRange);
    }
    if index != tables_in(shape) {
        return Err(Refusal::OutOfRange);
    }
    Ok(())
}

// The tables are emptied, and each layer's candidates entered in heap order, a key's second entry left out: 9.
pub fn build_index(header: Header, entries: &[u64], index: &mut [u64]) -> Result<(), Refusal>
    ensures value { refused result ≡ number (build_tests header entries.now (length index.old)) }
    ensures index_after { index.new ≡ index_left (refused result) (built_index header entries.now index.old) index.old }
{
    check_build(header, entries, index.len())?;
    build_tables(header, entries, index);
    Ok(())
}
