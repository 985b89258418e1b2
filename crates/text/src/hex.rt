// Words of 64 bits in 16 capital hexadecimal digits.
ghost use Rattle.std.specs.Prelude.{◌≡◌, Bool, ℕ, ◌+◌, ◌<◌, ◌≤◌, length};
ghost use Rattle.std.proofs.lemmas.List.Edits.{sets};
ghost use Rattle.std.specs.List.{list_all};
ghost use Rattle.text.specs.Hex.{is_hex, nibble_of, hex_ok_at, hex_at, hex_glyph, hex_digits};

#[tactic(auto, unfolding(crate::specs::Hex::is_hex))]
pub fn is_hex(b: u8) -> bool
    ensures { result ≡ is_hex b }
{
    matches!(b, b'0'..=b'9' | b'A'..=b'F')
}

// The value of a digit; 0 for any other byte.
#[tactic(auto, unfolding(crate::specs::Hex::nibble_of))]
fn nibble(b: u8) -> u64
    ensures { (result ≡ nibble_of b) × (result < 16) }
{
    match b {
        b'0'..=b'9' => u64::from(b - b'0'),
        b'A'..=b'F' => u64::from(b - b'A') + 10,
        _ => 0,
    }
}

// Whether all bytes are digits.
fn all_hex(s: &[u8]) -> bool
    ensures { result ≡ list_all is_hex s.now }
{
    s.iter().all(|b| is_hex(*b))
}

// Whether the 16 bytes from a place on are digits.
pub fn hex_ok(s: &[u8], at: usize) -> bool
    ensures { result ≡ hex_ok_at s.now at }
{
    if s.len().saturating_sub(at) < 16 {
        return false;
    }
    all_hex(&s[at..at + 16])
}

// The value of the 16 digits from a place on. The remainder keeps the product within a word.
pub fn hex_value(s: &[u8], at: usize) -> u64
    requires { at + 16 ≤ length s.now }
    ensures { result ≡ hex_at s.now at }
{
    let mut v: u64 = 0;
    for b in &s[at..at + 16] {
        v = v % 1152921504606846976 * 16 + nibble(*b);
    }
    v
}

#[tactic(auto, unfolding(crate::specs::Hex::hex_glyph))]
fn hex_glyph(d: u64) -> u8
    requires { d < 16 }
    ensures { result ≡ hex_glyph d }
{
    if d < 10 {
        b'0' + d as u8
    } else {
        b'A' + (d - 10) as u8
    }
}

// Writes 16 digits, the highest first.
pub fn put_hex(out: &mut [u8], at: usize, n: u64) -> usize
    requires { at + 16 ≤ length out.old }
    ensures value { result ≡ at + 16 }
    ensures out_after { out.new ≡ sets out.old at (hex_digits 16 n) }
{
    for i in 0..16 {
        out[at + i] = hex_glyph((n >> (4 * (15 - i))) % 16);
    }
    at + 16
}
