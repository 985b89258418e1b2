// Bytes, words and numbers, stored from a place on as far as the slice goes.
ghost use Rattle.std.specs.Prelude.{[], ◌∷◌, ℕ, ◌+◌, ◌<◌, ◌≤◌, length, take, ℤ};
ghost use Rattle.text.specs.Decimals.{dec};
ghost use Rattle.text.specs.Signs.{signed_dec};
ghost use Rattle.state_forms.specs.Formats.{num};
ghost use Rattle.state_forms.specs.inner.Laying.{TextRoom, LaidText};

use text::decimals::put_decimal;
use text::signed::put_signed;

pub fn lay_byte(out: &mut [u8], at: usize, b: u8) -> usize
    requires { TextRoom at (b ∷ []) }
    ensures { LaidText out.old at (b ∷ []) out.new result }
{
    if at < out.len() {
        out[at] = b;
    }
    at + 1
}

pub fn lay_word(out: &mut [u8], at: usize, word: &[u8]) -> usize
    requires { TextRoom at word.now }
    ensures { LaidText out.old at word.now out.new result }
{
    let mut p = at;
    for b in word {
        p = lay_byte(out, p, *b);
    }
    p
}

pub fn lay_decimal(out: &mut [u8], at: usize, n: u64) -> usize
    requires { TextRoom at (dec n) }
    ensures { LaidText out.old at (dec n) out.new result }
{
    let mut digits = [0u8; 20];
    let k = put_decimal(&mut digits, 0, n);
    lay_word(out, at, &digits[..k])
}

pub fn lay_signed(out: &mut [u8], at: usize, x: i64) -> usize
    requires { TextRoom at (signed_dec x) }
    ensures { LaidText out.old at (signed_dec x) out.new result }
{
    let mut digits = [0u8; 21];
    let k = put_signed(&mut digits, 0, x);
    lay_word(out, at, &digits[..k])
}

// A decimal and the byte after it.
pub fn lay_number(out: &mut [u8], at: usize, n: u64, stop: u8) -> usize
    requires { TextRoom at ((num stop).write n) }
    ensures { LaidText out.old at ((num stop).write n) out.new result }
{
    let i = lay_decimal(out, at, n);
    lay_byte(out, i, stop)
}
