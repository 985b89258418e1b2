// Whole numbers as floats, the correctly rounded root, and floats cut to whole numbers.
//
// The contract with the user has the root worked out by the program, digit by digit, and the digits counted.
// Every function takes every input: what it answers at a NaN, an infinity or a number below zero is part of its
// definition, and no caller has to rule one out.

#![tactic(auto)]

ghost use Rattle.std.specs.Prelude.{◌≡◌, ◌+◌, ◌*◌, ◌^◌, ◌<◌, ◌≤◌, min, false, ◌||◌, ◌==◌, from_bits, to_bits};
ghost use Rattle.std.specs.Float.{binary64};
ghost use Rattle.std.specs.Float.Ieee.{round, to_signed, of_int};
ghost use Rattle.float64.specs.Norm.{norm_top, norm_read};
ghost use Rattle.float64.specs.Root.{isqrt, root_at, root_bits, root};
ghost use Rattle.float64.specs.RootCount.{worked, count_at, count_bits, root_count};
ghost use Rattle.float64.specs.Cut.{middle_of, heavy_threshold};

// 2^63 - 1, the greatest norm that is read.
const NORM_TOP: u64 = 9223372036854775807;

// 2^52, the weight of the exponent's field in a pattern: the digits below it are the fraction.
const FIELD: u64 = 0x10_0000_0000_0000;

// 2^53, the weight of the first of 54 digits.
const FIRST_DIGIT: u64 = 0x20_0000_0000_0000;

// ---- patterns

// The pattern of x. Every NaN has the same one.
pub fn to_bits(x: f64) -> u64
    ensures { result ≡ to_bits binary64 x }
{
    std::num::f64_to_bits_with_nan(x)
}

// The value of a pattern.
pub fn from_bits(b: u64) -> f64
    ensures { result ≡ from_bits binary64 b }
{
    std::num::f64_from_bits_with_nan(b)
}

// ---- whole numbers as floats

// The f64 nearest to n, ties to even. Both halves have 32 digits, so each cast and the product are
// exact, and the sum is the one rounding. The contract with the user names this form, so it stays beside
// the library's `nearest_u64_to_f64`.
pub fn norm_to_f64(n: u64) -> f64
    ensures { result ≡ round binary64 false n 1 }
{
    let high = (n >> 32) as f64;
    let low = (n & 0xffff_ffff) as f64;
    high * 4294967296.0 + low
}

// A norm of two words, clamped to 2^63 - 1.
pub fn norm_clamped(lo: u64, hi: u64) -> u64
    ensures { result ≡ min (lo + 18446744073709551616 * hi) norm_top }
{
    if 0 < hi { NORM_TOP } else { lo.min(NORM_TOP) }
}

// A norm of two words as it is read.
pub fn norm_read(lo: u64, hi: u64) -> f64
    ensures { result ≡ norm_read (lo + 18446744073709551616 * hi) }
{
    norm_to_f64(norm_clamped(lo, hi))
}

// The f64 nearest to x, ties to even, as Rust's `as` has it: exact up to 2^53 either way.
pub fn count_to_f64(x: i64) -> f64
    ensures { result ≡ of_int binary64 x }
{
    std::num::nearest_i64_to_f64(x)
}

// ---- the root

// The 54 digits of a root, and how many of them were worked out; the others are zeros.
#[derive(Clone, Copy)]
struct RootDigits {
    root: u64,
    count: u64,
}

// The pattern of a root, and how many of its digits were worked out.
#[derive(Clone, Copy)]
struct RootBits {
    bits: u64,
    count: u64,
}

// A root, and how many of its binary digits were worked out, from its first 1.
#[derive(Clone, Copy)]
pub struct CountedRoot {
    pub value: f64,
    pub count: u64,
}

// Whether the search ends: nothing is left, so that the remainder is zero with only zeros left to
// bring down, or all 54 digits are worked out.
fn search_ends(left: u64, count: u64) -> bool
    ensures { result ≡ (left == 0 || count == 54) }
{
    (left == 0) | (count == 54)
}

// The 54 digits of the whole root of a * 2^54.
fn root_search(a: u64) -> RootDigits
    requires { a < 2 ^ 54 }
    ensures fact_1 { result.root ≡ isqrt 54 (a * 2 ^ 54) }
    ensures fact_2 { result.count ≡ worked (a * 2 ^ 54) }
{
    // the root, doubled: that is what the next digit is held against
    let mut twice = 0u64;
    // what the root's square leaves of the number, counted in the weight of the last digit: the
    // remainder, with the digits that are not brought down yet behind it
    let mut left = a;
    let mut count = 0u64;
    loop {
        if search_ends(left, count) {
            break RootDigits {
                root: twice / 2,
                count,
            };
        }
        let digit = FIRST_DIGIT >> count;
        let next = twice + digit;
        left = 2 * left;
        if next <= left {
            left -= next;
            twice = next + digit;
        }
        count += 1;
    }
}

// The pattern of the root of d * 2^(p - 2098), where d has 53 digits.
fn root_at(d: u64, p: u64) -> RootBits
    requires fact_1 { 2 ^ 52 ≤ d }
    requires fact_2 { d < 2 ^ 53 }
    requires fact_3 { p < 4096 }
    ensures fact_1 { result.bits ≡ root_at d p }
    ensures fact_2 { result.count ≡ count_at d p }
{
    let a = if p % 2 == 0 { d } else { d * 2 };
    let found = root_search(a);
    let q = (found.root + 1) / 2;
    RootBits {
        bits: p / 2 * FIELD + (q - FIELD),
        count: found.count,
    }
}

// The pattern of the root of the number above zero whose pattern is b.
fn root_bits(b: u64) -> RootBits
    requires fact_1 { 0 < b }
    requires fact_2 { b < 2047 * 2 ^ 52 }
    ensures fact_1 { result.bits ≡ root_bits b }
    ensures fact_2 { result.count ≡ count_bits b }
{
    if b < FIELD {
        // a subnormal: its digits are moved up to 53
        let z = u64::from(b.leading_zeros());
        root_at(b << (z - 11), 1035 - z)
    } else {
        root_at(b % FIELD + FIELD, b / FIELD + 1023)
    }
}

// The correctly rounded root, and how many of its digits were worked out: of a zero that zero, of
// +infinity itself, of a NaN and of anything below zero a NaN, each without a digit.
pub fn sqrt_counted(x: f64) -> CountedRoot
    ensures fact_1 { result.value ≡ root x }
    ensures fact_2 { result.count ≡ root_count x }
{
    if x > 0.0 {
        if x < 1.0 / 0.0 {
            let found = root_bits(f64::to_bits(x));
            let value = f64::from_bits(found.bits);
            return CountedRoot {
                value,
                count: found.count,
            };
        }
        return CountedRoot { value: x, count: 0 };
    }
    if x == 0.0 {
        return CountedRoot { value: x, count: 0 };
    }
    CountedRoot {
        value: 0.0 / 0.0,
        count: 0,
    }
}

// The correctly rounded root.
pub fn sqrt(x: f64) -> f64
    ensures { result ≡ root x }
{
    sqrt_counted(x).value
}

// ---- floats cut to whole numbers

// x without its fraction, as Rust's `as i64` has it: the nearest end of the range where x is out of
// it, an infinity too, and 0 for a NaN.
pub fn to_i64(x: f64) -> i64
    ensures { result ≡ to_signed 63 x }
{
    std::num::saturating_f64_to_i64(x)
}

// The middle of two values, for a median of an even number of them.
pub fn middle(a: f64, b: f64) -> f64
    ensures { result ≡ middle_of a b }
{
    (a + b) / 2.0
}

// The greatest count that is left out of a terminal sum. A heap size of 0, which no shape has, gives
// the greatest i64 for an l2 above zero and 0 for a zero.
pub fn heavy_threshold(l2: f64, heap_size: usize, complete: bool) -> i64
    ensures { result ≡ heavy_threshold l2 heap_size complete }
{
    if complete {
        return 0;
    }
    to_i64(l2 / sqrt(norm_to_f64(heap_size as u64)))
}
