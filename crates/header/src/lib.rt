// Shapes, modes and headers: what a state is beside its slices, and the header's own steps.
//
// `check_shape`, `Shape::new`, `Shape::new_one_tier` and `bottom_layer_for_hash` are public calls. The
// other functions are for the crates of this repository, and may ask for what their callers have tested.

#![tactic(auto)]

ghost use Rattle.std.specs.Prelude.{◌≡◌, Bool, true, false, ◌&&◌, ◌||◌, List, ℕ, ◌+◌, ◌-◌, ◌<◌, ◌≤◌, length, get_or, set, replicate, eqb, leb};
ghost use Rattle.words.specs.Num.{top};
ghost use Rattle.words.specs.Tests.{number};
ghost use Rattle.refusal.specs.Refusals.{answer, refused};
ghost use Rattle.header.specs.Answers.{answered_by, answered_lent_by};
ghost use Rattle.matrix_storage.specs.inner.Shaped.{Shaped};
ghost use Rattle.header.specs.declared.Mode.{Mode};
ghost use Rattle.header.specs.Totals.{no_totals, update_totals, add_totals, set_weight, totals_ok, totals_tests};
ghost use Rattle.header.specs.Shape.{max_layers, two_tier, empty_tier, bits_above, tier_above, same_tier, shape_refusal, checked_shape, same_shape, bottom_of, bottom_layer};
ghost use Rattle.header.specs.OneTier.{one_tier, is_one_tier};
ghost use Rattle.header.specs.Header.{zero_header, fresh_header, with_totals, with_mode, with_flags, with_lens, with_layer, with_layers, scalars_of, clash, joined, mode_number, mode_by, begun, begun_scalars, begin_tests, begin_of, begin_header, fresh_flags, lens_from, header_ok, head_of};

use refusal::Refusal;

// The dimensions of a state: heap size, layers, and rows and columns of two tiers. Layers below
// `elephant_layers` are of the first, the others of the second. `UnivMon`'s four dimensions are a shape
// whose tiers are alike (`Shape::one_tier`).
#[derive(Clone, Copy, PartialEq, Eq)]
pub struct Shape {
    pub heap_size: usize,
    pub layers: usize,
    pub elephant_layers: usize,
    pub elephant_rows: usize,
    pub elephant_cols: usize,
    pub mouse_rows: usize,
    pub mouse_cols: usize,
}

// How keys were sent to layers; a fresh state has no mode yet.
#[derive(Clone, Copy)]
pub enum Mode {
    Unset,
    Standard,
    Terminal,
}

// What updates and merges add up, beside the layers: the weight of all that was counted, and the number
// of updates.
#[derive(Clone, Copy)]
pub struct Totals {
    pub weight: u64,
    pub updates: u64,
}

// The fields stand by falling alignment, so that no copy of a header starts at an odd byte.
#[derive(Clone, Copy)]
pub struct Header {
    pub shape: Shape,
    pub totals: Totals,
    pub lens: [usize; Shape::MAX_LAYERS],
    pub flags: [bool; Shape::MAX_LAYERS],
    pub mode: Mode,
}

// A header without what it holds by layer. It goes beside lengths and flags, which are lent: a header by
// value would be copied at each call.
#[derive(Clone, Copy)]
pub struct Scalars {
    pub shape: Shape,
    pub totals: Totals,
    pub mode: Mode,
}

impl Shape {
    pub const MAX_LAYERS: usize = 19;

    pub const MAX_ROWS: usize = matrix_storage::MAX_ROWS;

    pub const MAX_COLS: usize = matrix_storage::MAX_COLS;

    pub const MAX_HEAP_SIZE: usize = heap_moves::MAX_HEAP_SIZE;

    // Whether the dimensions are accepted: 1, 2, 3, 4 in this order, each over both tiers. Tests that are
    // joined by `|` have no jump.
    pub fn check(self) -> Result<(), Refusal>
        ensures { refused result ≡ shape_refusal self }
    {
        let elephants = empty_tier(self.elephant_rows, self.elephant_cols);
        let mice = empty_tier(self.mouse_rows, self.mouse_cols);
        if (self.heap_size == 0) | ((self.layers == 0) | (elephants | mice)) {
            return Err(Refusal::ZeroDimension);
        }
        if (Self::MAX_LAYERS < self.layers) | (Self::MAX_LAYERS < self.elephant_layers) {
            return Err(Refusal::TooManyLayers);
        }
        if self.bits_above() {
            return Err(Refusal::TooManyHashBits);
        }
        let wide = tier_above(self.elephant_rows, self.elephant_cols);
        let narrow = tier_above(self.mouse_rows, self.mouse_cols);
        if wide | (narrow | (Self::MAX_HEAP_SIZE < self.heap_size)) {
            return Err(Refusal::AboveDomain);
        }
        Ok(())
    }

    // Whether a tier takes more hash bits than there are. Tiers that are alike are asked once.
    fn bits_above(self) -> bool
        requires { (1 ≤ self.elephant_cols) × (1 ≤ self.mouse_cols) }
        ensures { result ≡ bits_above self.elephant_rows self.elephant_cols || bits_above self.mouse_rows self.mouse_cols }
    {
        let elephants = (self.elephant_rows, self.elephant_cols);
        let mice = (self.mouse_rows, self.mouse_cols);
        matrix_storage::bits_above(mice.0, mice.1)
            || elephants != mice && matrix_storage::bits_above(elephants.0, elephants.1)
    }

    // Whether every dimension is of its usual range, in which nothing is refused and no hash bits need to
    // be counted. The contract says what a yes means, and nothing of a no.
    fn usual(self) -> bool
        ensures { result ≡ true → shape_refusal self ≡ 0 }
    {
        let elephants = usual_tier(self.elephant_rows, self.elephant_cols);
        let mice = usual_tier(self.mouse_rows, self.mouse_cols);
        let layers = (0 < self.layers)
            & (self.layers <= Self::MAX_LAYERS)
            & (self.elephant_layers <= Self::MAX_LAYERS);
        let seats = (0 < self.heap_size) & (self.heap_size <= Self::MAX_HEAP_SIZE);
        elephants & mice & layers & seats
    }

    // Whether no dimension is refused. Usual ones are told without a jump.
    pub fn accepted(self) -> bool
        ensures { result ≡ eqb (shape_refusal self) 0 }
    {
        self.usual() || self.check().is_ok()
    }

    // The shape itself, if it is accepted.
    fn checked(self) -> Result<Self, Refusal>
        ensures { answer result ≡ checked_shape self }
    {
        self.check()?;
        Ok(self)
    }

    // The shape of these dimensions, if none is refused.
    pub fn new(
        heap_size: usize,
        elephant_layers: usize,
        elephant_rows: usize,
        elephant_cols: usize,
        mouse_rows: usize,
        mouse_cols: usize,
        layers: usize,
    ) -> Result<Self, Refusal>
        ensures { answer result ≡ checked_shape (two_tier heap_size elephant_layers elephant_rows elephant_cols mouse_rows mouse_cols layers) }
    {
        let shape = Shape {
            heap_size,
            layers,
            elephant_layers,
            elephant_rows,
            elephant_cols,
            mouse_rows,
            mouse_cols,
        };
        shape.checked()
    }

    // The same of the four dimensions of `UnivMon`.
    pub fn new_one_tier(
        heap_size: usize,
        rows: usize,
        cols: usize,
        layers: usize,
    ) -> Result<Self, Refusal>
        ensures { answer result ≡ checked_shape (one_tier heap_size rows cols layers) }
    {
        Shape::one_tier(heap_size, rows, cols, layers).checked()
    }

    // The shape whose layers all have these rows and columns, as those of `UnivMon`; of any numbers.
    pub fn one_tier(heap_size: usize, rows: usize, cols: usize, layers: usize) -> Self
        ensures { result ≡ one_tier heap_size rows cols layers }
    {
        Shape {
            heap_size,
            layers,
            elephant_layers: 0,
            elephant_rows: rows,
            elephant_cols: cols,
            mouse_rows: rows,
            mouse_cols: cols,
        }
    }

    // Whether it is a shape of that form.
    pub fn is_one_tier(self) -> bool
        ensures { result ≡ is_one_tier self }
    {
        let alike = Shape::one_tier(
            self.heap_size,
            self.mouse_rows,
            self.mouse_cols,
            self.layers,
        );
        alike.same(self)
    }

    // Whether two shapes have the same dimensions, also those that no layer uses.
    pub fn same(self, other: Shape) -> bool
        ensures { result ≡ same_shape self other }
    {
        self == other
    }
}

// ---- one tier's rows and columns

fn empty_tier(rows: usize, cols: usize) -> bool
    ensures { result ≡ empty_tier rows cols }
{
    (rows == 0) | (cols == 0)
}

// Nine rows of any columns of the domain take at most 9 × 13 of the 128 hash bits.
fn usual_tier(rows: usize, cols: usize) -> bool
    ensures { result ≡ true → Shaped rows cols }
{
    (0 < rows) & (rows <= 9) & (0 < cols) & (cols <= Shape::MAX_COLS)
}

fn tier_above(rows: usize, cols: usize) -> bool
    ensures { result ≡ tier_above rows cols }
{
    (Shape::MAX_ROWS < rows) | (Shape::MAX_COLS < cols)
}

// Whether the four dimensions of `UnivMon` are accepted.
pub fn check_shape(heap_size: usize, rows: usize, cols: usize, layers: usize) -> Result<(), Refusal>
    ensures { refused result ≡ shape_refusal (one_tier heap_size rows cols layers) }
{
    Shape::one_tier(heap_size, rows, cols, layers).check()
}

// The last layer that a key with this bottom hash reaches: the number of ones in a row from bit 1 on, at
// most layers - 1. They are counted as the trailing zeros of the complement, not bit by bit.
pub fn bottom_of(hash: u64, layers: usize) -> usize
    requires { (1 ≤ layers) × (layers ≤ max_layers) }
    ensures { (result ≡ bottom_of hash layers) × (result < layers) }
{
    let ones = u64::trailing_zeros(u64::MAX - (hash >> 1)) as usize;
    ones.min(layers - 1)
}

// The same for any number of layers: 1 for none, 2 above the domain.
pub fn bottom_layer_for_hash(hash: u64, layers: usize) -> Result<usize, Refusal>
    ensures { answer result ≡ bottom_layer hash layers }
{
    if layers == 0 {
        return Err(Refusal::ZeroDimension);
    }
    if Shape::MAX_LAYERS < layers {
        return Err(Refusal::TooManyLayers);
    }
    Ok(bottom_of(hash, layers))
}

// ---- modes

pub fn clashes(a: Mode, b: Mode) -> bool
    ensures { result ≡ clash a b }
{
    matches!(
        (a, b),
        (Mode::Standard, Mode::Terminal) | (Mode::Terminal, Mode::Standard)
    )
}

pub fn join(a: Mode, b: Mode) -> Mode
    ensures { result ≡ joined a b }
{
    match a {
        Mode::Unset => b,
        Mode::Standard | Mode::Terminal => a,
    }
}

// Modes as numbers, for C and for texts: 0 unset, 1 standard, 2 terminal.
pub fn mode_number(mode: Mode) -> u64
    ensures { result ≡ mode_number mode }
{
    match mode {
        Mode::Unset => 0,
        Mode::Standard => 1,
        Mode::Terminal => 2,
    }
}

// Unset for a number that is no mode: callers refuse it first.
pub fn mode_of(n: u64) -> Mode
    ensures { result ≡ mode_by n }
{
    match n {
        1 => Mode::Standard,
        2 => Mode::Terminal,
        _ => Mode::Unset,
    }
}

// ---- the header's own steps

impl Header {
    // What a refused `new` gives.
    pub fn zero() -> Self
        ensures { result ≡ zero_header }
    {
        Header {
            shape: Shape::one_tier(0, 0, 0, 0),
            totals: Totals::zero(),
            mode: Mode::Unset,
            flags: [false; Shape::MAX_LAYERS],
            lens: [0usize; Shape::MAX_LAYERS],
        }
    }

    // Nothing counted yet, every layer complete.
    pub fn fresh(shape: Shape) -> Self
        requires { shape.layers ≤ max_layers }
        ensures { result ≡ fresh_header shape }
    {
        Header {
            shape,
            totals: Totals::zero(),
            mode: Mode::Unset,
            flags: fresh_flags(shape.layers),
            lens: [0usize; Shape::MAX_LAYERS],
        }
    }

    // What is left without lengths and flags.
    pub fn scalars(self) -> Scalars
        ensures { result ≡ scalars_of self }
    {
        Scalars {
            shape: self.shape,
            totals: self.totals,
            mode: self.mode,
        }
    }

    pub fn with_totals(self, totals: Totals) -> Self
        ensures { result ≡ with_totals self totals }
    {
        Header { totals, ..self }
    }

    pub fn with_mode(self, mode: Mode) -> Self
        ensures { result ≡ with_mode self mode }
    {
        Header { mode, ..self }
    }

    pub fn clear_flag(mut self, layer: usize) -> Self
        requires { layer < max_layers }
        ensures { result ≡ with_flags self (set self.flags layer false) }
    {
        self.flags[layer] = false;
        self
    }

    // No layer is complete any more.
    pub fn clear_flags(mut self) -> Self
        ensures { result ≡ with_flags self (replicate max_layers false) }
    {
        self.flags = [false; Shape::MAX_LAYERS];
        self
    }

    pub fn with_len(mut self, layer: usize, len: usize) -> Self
        requires { layer < max_layers }
        ensures { result ≡ with_lens self (set self.lens layer len) }
    {
        self.lens[layer] = len;
        self
    }

    // A layer's new length; its flag falls where a key was not kept. The test comes first: each way
    // then copies the header no more than storing in place would.
    pub fn touched(self, layer: usize, len: usize, kept: bool) -> Self
        requires { layer < max_layers }
        ensures { result ≡ with_layer self layer len (get_or self.flags layer false && kept) }
    {
        if kept {
            return self.with_len(layer, len);
        }
        self.clear_flag(layer).with_len(layer, len)
    }

    // A layer's length and flag anew.
    pub fn with_layer(mut self, layer: usize, len: usize, flag: bool) -> Self
        requires { layer < max_layers }
        ensures { result ≡ with_layer self layer len flag }
    {
        self.lens[layer] = len;
        self.flags[layer] = flag;
        self
    }

    // Every length and flag anew, after a call that was lent them.
    pub fn with_layers(
        mut self,
        lens: [usize; Shape::MAX_LAYERS],
        flags: [bool; Shape::MAX_LAYERS],
    ) -> Self
        ensures { result ≡ with_layers self lens flags }
    {
        self.lens = lens;
        self.flags = flags;
        self
    }

    // The same of a whole header, for a merge.
    pub fn begin(self, totals: Totals, mode: Mode) -> Self
        requires { number (totals_tests self.totals totals) ≡ 0 }
        ensures { result ≡ begun self totals mode }
    {
        let Scalars { totals, mode, .. } = self.scalars().begin(totals, mode);
        Header {
            totals,
            mode,
            ..self
        }
    }

    // Totals and mode of an update come in, 5, 6, 7 and 14: the header that the update begins with.
    pub fn begin_update(self, weight: i64, mode: Mode) -> Result<Self, Refusal>
        ensures { answered_by self result ≡ begin_header self weight mode }
    {
        let Scalars { totals, mode, .. } = self.scalars().begin_update(weight, mode)?;
        Ok(Header {
            totals,
            mode,
            ..self
        })
    }

    // Whether dimensions, totals, lengths and flags are in range. It asks `check`, so that the update stays the one caller
    // of `accepted`, into which the compiler takes it. Lengths and flags go through variables: lent from `self` they would
    // have the whole header copied.
    pub fn in_range(self) -> bool
        ensures { result ≡ header_ok self }
    {
        let shape = self.shape;
        let lens = self.lens;
        let flags = self.flags;
        shape.check().is_ok()
            && rest_in_range(shape.layers, shape.heap_size, self.totals, &lens, &flags)
    }
}

// Whether two weights, or two numbers of updates, which have the same bound, sum to at most 2^52. The sum
// is not formed: of numbers out of range it might not fit 64 bits.
fn sum_within(a: u64, b: u64) -> bool
    ensures { result ≡ leb (a + b) top }
{
    b <= words::MAX_WEIGHT && a <= words::MAX_WEIGHT - b
}

impl Totals {
    pub fn zero() -> Self
        ensures { result ≡ no_totals }
    {
        Totals {
            weight: 0,
            updates: 0,
        }
    }

    // What one update adds.
    pub fn of_update(weight: u64) -> Self
        ensures { result ≡ update_totals weight }
    {
        Totals { weight, updates: 1 }
    }

    pub fn with_weight(self, weight: u64) -> Self
        ensures { result ≡ set_weight self weight }
    {
        Totals { weight, ..self }
    }

    // The number of updates has the weight's bound.
    pub fn in_range(self) -> bool
        ensures { result ≡ totals_ok self }
    {
        (self.weight <= words::MAX_WEIGHT) & (self.updates <= words::MAX_WEIGHT)
    }

    // Whether two totals may be added: 7 where their weights would pass 2^52, else 14 where their updates
    // would; for totals out of range too.
    pub fn check_sum(self, more: Totals) -> Result<(), Refusal>
        ensures { refused result ≡ number (totals_tests self more) }
    {
        let light = sum_within(self.weight, more.weight);
        let few = sum_within(self.updates, more.updates);
        if !light {
            return Err(Refusal::WeightAbove);
        }
        if !few {
            return Err(Refusal::UpdatesAbove);
        }
        Ok(())
    }

    pub fn plus(self, more: Totals) -> Self
        requires { number (totals_tests self more) ≡ 0 }
        ensures { result ≡ add_totals self more }
    {
        Totals {
            weight: self.weight + more.weight,
            updates: self.updates + more.updates,
        }
    }
}

impl Scalars {
    // Whether an update may begin: 5, 6, 7, 14.
    pub fn check_begin(self, weight: i64, mode: Mode) -> Result<(), Refusal>
        ensures { refused result ≡ number (begin_tests self weight mode) }
    {
        if weight < 0 {
            return Err(Refusal::NegativeWeight);
        }
        if clashes(self.mode, mode) {
            return Err(Refusal::MixedModes);
        }
        self.totals
            .check_sum(Totals::of_update(words::magnitude(weight)))
    }

    // The totals of an update or of a second state come in, once they are judged, and an unset mode
    // takes theirs.
    pub fn begin(self, totals: Totals, mode: Mode) -> Self
        requires { number (totals_tests self.totals totals) ≡ 0 }
        ensures { result ≡ begun_scalars self totals mode }
    {
        Scalars {
            totals: self.totals.plus(totals),
            mode: join(self.mode, mode),
            ..self
        }
    }

    // An update's beginning without lengths and flags, which it does not change; for any totals that
    // were there.
    pub fn begin_update(self, weight: i64, mode: Mode) -> Result<Self, Refusal>
        ensures { answered_lent_by self result ≡ begin_of self weight mode }
    {
        self.check_begin(weight, mode)?;
        Ok(self.begin(Totals::of_update(words::magnitude(weight)), mode))
    }
}

// True for the layers, false past the last.
fn fresh_flags(layers: usize) -> [bool; Shape::MAX_LAYERS]
    requires { layers ≤ max_layers }
    ensures { result ≡ fresh_flags layers }
{
    let mut flags = [false; Shape::MAX_LAYERS];
    flags[..layers].fill(true);
    flags
}

// ---- ranges

// Whether the layers' lengths are at most the heap size. No test ends the loop early: in a header that
// is in range all are looked at anyway, and tests that are joined by `&` have no jump.
fn lens_few(lens: &[usize], layers: usize, heap_size: usize) -> bool
    requires { layers ≤ length lens.now }
    ensures { (flags : List Bool) → result ≡ lens_from layers heap_size lens.now flags layers 0 }
{
    let mut few = true;
    for len in &lens[..layers] {
        few &= *len <= heap_size;
    }
    few
}

// Whether past the last layer lengths are 0 and flags false.
fn rest_clear(lens: &[usize], flags: &[bool], layers: usize) -> bool
    requires { (layers ≤ max_layers) × ((length lens.now ≡ max_layers) × (length flags.now ≡ max_layers)) }
    ensures { (size : ℕ) → result ≡ lens_from layers size lens.now flags.now (max_layers - layers) layers }
{
    let mut clear = true;
    for l in layers..Shape::MAX_LAYERS {
        clear &= (lens[l] == 0) & !flags[l];
    }
    clear
}

// Whether totals, lengths and flags are in range, beside dimensions that are.
fn rest_in_range(
    layers: usize,
    heap_size: usize,
    totals: Totals,
    lens: &[usize],
    flags: &[bool],
) -> bool
    requires { (layers ≤ max_layers) × ((length lens.now ≡ max_layers) × (length flags.now ≡ max_layers)) }
    ensures { result ≡ totals_ok totals && lens_from layers heap_size lens.now flags.now max_layers 0 }
{
    totals.in_range() && lens_few(lens, layers, heap_size) & rest_clear(lens, flags, layers)
}

// Whether dimensions, totals, lengths and flags are in range; of the mode nothing is asked. For the
// update, its one caller, into which the compiler takes it.
pub fn fields_in_range(shape: Shape, totals: Totals, lens: &[usize], flags: &[bool]) -> bool
    requires { (length lens.now ≡ max_layers) × (length flags.now ≡ max_layers) }
    ensures { (m : Mode) → result ≡ header_ok (head_of (record { shape = shape; totals = totals; mode = m }) lens.now flags.now) }
{
    shape.accepted() && rest_in_range(shape.layers, shape.heap_size, totals, lens, flags)
}
