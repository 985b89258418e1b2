// Decimals of 64 bits with a minus sign before the negative ones.
ghost use Rattle.std.specs.Prelude.{◌≡◌, ℕ, ◌+◌, ◌^◌, ◌<◌, ◌≤◌, ℤ, pos, negsuc, length, Some};
ghost use Rattle.std.proofs.lemmas.List.Edits.{sets};
ghost use Rattle.text.specs.Signs.{negated, unsigned, int_at, signed_dec};

use crate::decimals::{field, put_decimal};

// The number -1 - m: -2^63 has no positive counterpart.
fn below_zero(m: u64) -> i64
    requires { m < 2 ^ 63 }
    ensures { result ≡ negsuc m }
{
    -1 - (m as i64)
}

fn as_signed(v: u64) -> i64
    requires { v < 2 ^ 63 }
    ensures { result ≡ pos v }
{
    v as i64
}

// A number after `-`, and the place past it.
#[tactic(auto, unfolding(crate::specs::Signs::negated))]
fn negative(v: u64, next: usize) -> Option<(i64, usize)>
    ensures { result ≡ negated (Some (v, next)) }
{
    if v == 0 || 9223372036854775808 < v {
        return None;
    }
    Some((below_zero(v - 1), next))
}

// A number with no sign, and the place past it.
#[tactic(auto, unfolding(crate::specs::Signs::unsigned))]
fn not_negative(v: u64, next: usize) -> Option<(i64, usize)>
    ensures { result ≡ unsigned (Some (v, next)) }
{
    if 9223372036854775807 < v {
        return None;
    }
    Some((as_signed(v), next))
}

// A signed decimal and the byte `stop` after it.
#[tactic(auto, unfolding(crate::specs::Signs::int_at))]
pub fn signed_field(s: &[u8], at: usize, stop: u8) -> Option<(i64, usize)>
    ensures { result ≡ int_at s.now at stop }
{
    if s.len() <= at {
        return None;
    }
    if s[at] == b'-' {
        let (v, next) = field(s, at + 1, stop)?;
        return negative(v, next);
    }
    let (v, next) = field(s, at, stop)?;
    not_negative(v, next)
}

pub fn put_signed(out: &mut [u8], at: usize, x: i64) -> usize
    requires { at + length (signed_dec x) ≤ length out.old }
    ensures value { result ≡ at + length (signed_dec x) }
    ensures out_after { out.new ≡ sets out.old at (signed_dec x) }
{
    let n = x.unsigned_abs();
    if x < 0 {
        out[at] = b'-';
        return put_decimal(out, at + 1, n);
    }
    put_decimal(out, at, n)
}
