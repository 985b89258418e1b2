// What a merge reads of two states, whether the sums fit, and what it is refused with: nothing is written here.
ghost use Rattle.refusal.specs.Refusals.{refused};
ghost use Rattle.std.specs.Prelude.{◌≡◌, ◌++◌, ◌*◌};
ghost use Rattle.words.specs.Tests.{number};
ghost use Rattle.layout.specs.State.{layer_at, all_layers};
ghost use Rattle.layout.specs.Slices.{view};
ghost use Rattle.layout.specs.Lending.{lent_read};
ghost use Rattle.layout.specs.inner.Telling.{list_tests};
ghost use Rattle.univmon_merge.specs.Merges.{heads_tests, pair_tests, merge_tests};
ghost use Rattle.univmon_merge.specs.inner.Pairs.{Paired, PairRead, PairsRead, reads_with, fits_with};

use header::Header;
use layout::{LentState, check_lent};
use refusal::Refusal;

// Whether what a merge reads of one layer of both states is in range.
fn reads_at(state: LentState, other: LentState, l: usize) -> bool
    requires { Paired (lent_read state) (lent_read other) 1 l }
    ensures { result ≡ reads_with (view (lent_read other.entry)) l
        (layer_at (view (lent_read state.entry)) l) }
{
    let own = state.layer(l);
    let second = other.layer(l);
    layer::merge_reads(
        own.cells,
        own.counts,
        own.len,
        second.cells,
        second.counts,
        second.len,
    )
}

// Whether the sums of one layer's counters are in range.
fn fits_at(state: LentState, other: LentState, l: usize) -> bool
    requires { PairRead (lent_read state) (lent_read other) l }
    ensures { result ≡ fits_with (view (lent_read other.entry)) l
        (layer_at (view (lent_read state.entry)) l) }
{
    let own = state.layer(l);
    let second = other.layer(l);
    layer::merge_fits(own.cells, second.cells)
}

// Whether all that a merge reads is in range, in many layers from the first on.
fn all_read(state: LentState, other: LentState, many: usize) -> bool
    requires { Paired (lent_read state) (lent_read other) many 0 }
    ensures { result ≡ all_layers (reads_with (view (lent_read other.entry))) many 0
        (view (lent_read state.entry)) }
{
    (0..many).all(|l| reads_at(state, other, l))
}

// Whether all sums are in range.
fn all_fit(state: LentState, other: LentState, many: usize) -> bool
    requires { PairsRead (lent_read state) (lent_read other) many }
    ensures { result ≡ all_layers (fits_with (view (lent_read other.entry))) many 0
        (view (lent_read state.entry)) }
{
    (0..many).all(|l| fits_at(state, other, l))
}

// ---- whether a merge is refused

// 10, 6, 7 or 14 by the two headers.
fn check_heads(h: Header, other: Header) -> Result<(), Refusal>
    ensures { refused result ≡ number (heads_tests h other) }
{
    let shape = h.shape;
    if !shape.same(other.shape) {
        return Err(Refusal::ShapesDiffer);
    }
    let mode = h.mode;
    let other_mode = other.mode;
    if header::clashes(mode, other_mode) {
        return Err(Refusal::MixedModes);
    }
    h.totals.check_sum(other.totals)
}

// 9 for what is read of the layers or 11 for their sums: 9 anywhere comes first.
fn check_layers(state: LentState, other: LentState, layers: usize) -> Result<(), Refusal>
    requires { Paired (lent_read state) (lent_read other) layers 0 }
    ensures { refused result ≡ number (pair_tests layers (view (lent_read state.entry)) (view (lent_read other.entry))) }
{
    if !all_read(state, other, layers) {
        return Err(Refusal::OutOfRange);
    }
    if !all_fit(state, other, layers) {
        return Err(Refusal::CounterAbove);
    }
    Ok(())
}

// Whether a merge with a list of so many words may be made.
pub fn check_merge(state: LentState, other: LentState, list: usize) -> Result<(), Refusal>
    ensures { refused result ≡ number (merge_tests (lent_read state.entry) (lent_read other.entry)
        ++ list_tests (4 * state.entry.header.now.shape.heap_size * state.entry.header.now.shape.layers) list) }
{
    check_lent(
        *state.header,
        state.counters,
        state.norms,
        state.entries,
        state.counts,
    )?;
    check_lent(
        *other.header,
        other.counters,
        other.norms,
        other.entries,
        other.counts,
    )?;
    check_heads(*state.header, *other.header)?;
    let shape = state.header.shape;
    check_layers(state, other, shape.layers)?;
    if list < 4 * shape.heap_size * shape.layers {
        return Err(Refusal::TooShort);
    }
    Ok(())
}
