// Sums over candidates, in floats, in the Rust's order of operations.
//
// These functions are called by the other crates of this repository, which show what they require.

#![tactic(auto)]

ghost use Rattle.std.specs.Prelude.{◌≡◌, [], ℕ, ◌<◌, ◌≤◌, length};
ghost use Rattle.sums.specs.inner.Spaces.{space, entries_in};
ghost use Rattle.sums.specs.Terms.{plus_zero, g_of, factor, counted, add_term, sum_over};
ghost use Rattle.sums.specs.inner.Up.{joined_sums};

// What is summed of a count.
#[derive(Clone, Copy)]
pub enum G {
    One,
    Value,
    Square,
}

// How the candidates of one layer are summed: g, whether every key counts or those above a
// threshold, whether this is the last layer (no signs), and the bit of the bottom hash that signs.
#[derive(Clone, Copy)]
pub struct Rule {
    pub g: G,
    pub every: bool,
    pub threshold: i64,
    pub last: bool,
    pub bit: u32,
}

// g of a count.
pub fn g_of(g: G, count: i64) -> f64
    ensures { result ≡ g_of g count }
{
    match g {
        G::One => 1.0,
        G::Value => float64::count_to_f64(count),
        G::Square => {
            let x = float64::count_to_f64(count);
            x * x
        }
    }
}

// 1.0 for a bit that is 0, -1.0 for one that is 1.
pub fn factor_of(bottom: u64, bit: u32) -> f64
    requires { bit < 64 }
    ensures { result ≡ factor bottom bit }
{
    let b = (bottom >> bit) % 2;
    1.0 - 2.0 * (b as f64)
}

// Whether a count is above the threshold, or every key counts.
pub fn counts_at(every: bool, threshold: i64, count: i64) -> bool
    ensures { result ≡ counted every threshold count }
{
    every || threshold < count
}

// The sum so far, with one candidate more.
pub fn add_term(acc: f64, rule: Rule, bottom: u64, count: i64) -> f64
    requires { rule.bit < 64 }
    ensures { result ≡ add_term rule acc bottom count }
{
    if !counts_at(rule.every, rule.threshold, count) {
        return acc;
    }
    let g = rule.g;
    let x = g_of(g, count);
    if rule.last {
        return acc + x;
    }
    acc + factor_of(bottom, rule.bit) * x
}

// The sum over the first n candidates, in their order.
pub fn layer_sum(bottoms: &[u64], counts: &[i64], n: usize, rule: Rule) -> f64
    requires n_in_bounds { (n ≤ length bottoms.now) × (n ≤ length counts.now) }
    requires bit_bound { rule.bit < 64 }
    ensures { result ≡ sum_over rule plus_zero (entries_in (space [] bottoms.now counts.now) 0 n) }
{
    let mut acc = 0.0;
    for i in 0..n {
        acc = add_term(acc, rule, bottoms[i], counts[i]);
    }
    acc
}

// The recursion's sum at a layer, from the layer's own sum and the recursion's sum below it.
pub fn join(last: bool, below: f64, own: f64) -> f64
    ensures { result ≡ joined_sums last below own }
{
    if last { own } else { 2.0 * below + own }
}
