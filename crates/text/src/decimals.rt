// Decimals of 64 bits, unsigned and without leading zeros. Reading one answers it and the place past it, or nothing.
ghost use Rattle.std.specs.Prelude.{◌≡◌, ℕ, ◌+◌, ◌<◌, ◌≤◌, length, drop};
ghost use Rattle.std.proofs.lemmas.List.Edits.{sets};
ghost use Rattle.text.specs.Decimals.{num_from, dec_from, field_at, dec};

// The digits from a place on, as many as there are.
fn number(s: &[u8], at: usize) -> Option<(u64, usize)>
    requires { at ≤ length s.now }
    ensures { result ≡ num_from 0 at (drop at s.now) }
{
    let mut v: u64 = 0;
    for i in at..s.len() {
        let b = s[i];
        if !b.is_ascii_digit() {
            return Some((v, i));
        }
        v = v.checked_mul(10)?.checked_add(u64::from(b - b'0'))?;
    }
    Some((v, s.len()))
}

// The digit that ends a decimal which begins with it.
const ZERO: u8 = b'0';

// A decimal. A `0` ends it at once: in `01` what follows is then not the byte that has to follow.
#[tactic(auto, unfolding(crate::specs::Decimals::dec_from))]
pub fn decimal(s: &[u8], at: usize) -> Option<(u64, usize)>
    ensures { result ≡ dec_from at (drop at s.now) }
{
    if s.len() <= at {
        return None;
    }
    let b = s[at];
    if b == ZERO {
        return Some((0, at + 1));
    }
    if !b.is_ascii_digit() {
        return None;
    }
    number(s, at)
}

// A decimal and the byte `stop` after it.
#[tactic(auto, unfolding(crate::specs::Decimals::field_at, crate::specs::Decimals::stopped))]
pub fn field(s: &[u8], at: usize, stop: u8) -> Option<(u64, usize)>
    ensures { result ≡ field_at s.now at stop }
{
    let (v, i) = decimal(s, at)?;
    if s.len() <= i || s[i] != stop {
        return None;
    }
    Some((v, i + 1))
}

// The number of digits, counted by four: that takes a quarter of the divisions that counting by one takes.
fn digits_of(n: u64) -> usize
    ensures { result ≡ length (dec n) }
{
    let mut v = n;
    let mut k = 0;
    while 10000 <= v {
        v = v / 10000;
        k += 4;
    }
    if v < 10 {
        return k + 1;
    }
    if v < 100 {
        return k + 2;
    }
    if v < 1000 {
        return k + 3;
    }
    k + 4
}

// Writes a decimal from its last digit to its first, as a division by ten gives them.
pub fn put_decimal(out: &mut [u8], at: usize, n: u64) -> usize
    requires { at + length (dec n) ≤ length out.old }
    ensures value { result ≡ at + length (dec n) }
    ensures out_after { out.new ≡ sets out.old at (dec n) }
{
    let end = at + digits_of(n);
    let mut i = end - 1;
    let mut v = n;
    while 10 <= v {
        out[i] = b'0' + (v % 10) as u8;
        v = v / 10;
        i -= 1;
    }
    out[i] = b'0' + v as u8;
    end
}
