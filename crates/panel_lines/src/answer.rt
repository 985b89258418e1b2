// Answers, written to the start of a lent slice; each call answers the number of bytes written.
ghost use Rattle.std.specs.Prelude.{◌≡◌, ◌++◌, ℕ, ◌+◌, ◌*◌, ◌≤◌, length};
ghost use Rattle.std.proofs.lemmas.List.Edits.{sets};
ghost use Rattle.text.specs.Decimals.{dec};
ghost use Rattle.text.specs.Hex.{hex_digits};
ghost use Rattle.panel_lines.specs.Answers.{ok_text, refused_text, flags_text, show_bytes, updates_text, show_text};

use text::decimals::put_decimal;
use text::hex::put_hex;
use text::word::{flag_digit, put_word};

// The bytes of `(show ..)` without its flags, which have two each, and the digits of its updates.
pub const SHOW_BARE: usize = 93;

// `(ok)`
pub fn put_ok(out: &mut [u8]) -> usize
    requires { 4 ≤ length out.old }
    ensures value { result ≡ 4 }
    ensures out_after { out.new ≡ sets out.old 0 ok_text }
{
    put_word(out, 0, b"(ok)")
}

// `(refused N)`
pub fn put_refused(out: &mut [u8], n: u64) -> usize
    requires { 30 ≤ length out.old }
    ensures value { result ≡ length (refused_text n) }
    ensures out_after { out.new ≡ sets out.old 0 (refused_text n) }
    ensures upper_bound { result ≤ 30 }
{
    let a = put_word(out, 0, b"(refused ");
    let b = put_decimal(out, a, n);
    put_word(out, b, b")")
}

// ` 1` or ` 0` for each flag, from layer 0 on.
fn put_flags(out: &mut [u8], at: usize, flags: &[bool]) -> usize
    requires { at + 2 * length flags.now ≤ length out.old }
    ensures value { result ≡ at + 2 * length flags.now }
    ensures out_after { out.new ≡ sets out.old at (flags_text flags.now) }
{
    for (i, flag) in flags.iter().enumerate() {
        let p = at + 2 * i;
        out[p] = b' ';
        out[p + 1] = flag_digit(*flag);
    }
    at + 2 * flags.len()
}

// A word and a hexadecimal number.
fn put_field(out: &mut [u8], at: usize, word: &[u8], n: u64) -> usize
    requires { at + length word.now + 16 ≤ length out.old }
    ensures value { result ≡ at + length word.now + 16 }
    ensures out_after { out.new ≡ sets out.old at (word.now ++ hex_digits 16 n) }
{
    let a = put_word(out, at, word);
    put_hex(out, a, n)
}

// `) (updates U))`: the end of `(show ..)`, from the bracket behind the flags on.
fn put_updates(out: &mut [u8], at: usize, n: u64) -> usize
    requires { at + 13 + length (dec n) ≤ length out.old }
    ensures value { result ≡ at + length (updates_text n) }
    ensures out_after { out.new ≡ sets out.old at (updates_text n) }
    ensures value_2 { result ≡ at + 13 + length (dec n) }
{
    let a = put_word(out, at, b") (updates ");
    let b = put_decimal(out, a, n);
    put_word(out, b, b"))")
}

// `(show (l1 H) (l2 H) (keys H) (flags F ..) (updates U))`: three floats as their bits, a flag for each
// layer, a decimal.
pub fn put_show(out: &mut [u8], l1: u64, l2: u64, keys: u64, flags: &[bool], updates: u64) -> usize
    requires { show_bytes (length flags.now) (length (dec updates)) ≤ length out.old }
    ensures value { result ≡ length (show_text l1 l2 keys flags.now updates) }
    ensures out_after { out.new ≡ sets out.old 0 (show_text l1 l2 keys flags.now updates) }
    ensures value_2 { result ≡ show_bytes (length flags.now) (length (dec updates)) }
{
    let a = put_field(out, 0, b"(show (l1 ", l1);
    let b = put_field(out, a, b") (l2 ", l2);
    let c = put_field(out, b, b") (keys ", keys);
    let d = put_word(out, c, b") (flags");
    let e = put_flags(out, d, flags);
    put_updates(out, e, updates)
}
