// Words and numbers at a place, as the formats read them from what is left of the text.
ghost use Rattle.std.specs.Prelude.{◌≡◌, ℕ, ◌<◌, false, length, drop};
ghost use Rattle.text.specs.Decimals.{is_digit};
ghost use Rattle.state_forms.specs.Formats.{word_r, num_r, int_r, this};
ghost use Rattle.state_lines.specs.inner.Places.{spot, value_spot};

use text::decimals::field;
use text::signed::signed_field;
use text::word::has_word;

// The place past a word.
pub fn word_at(s: &[u8], at: usize, word: &[u8]) -> Option<usize>
    requires { 0 < length word.now }
    ensures { spot s.now result ≡ word_r word.now (drop at s.now) }
{
    if !has_word(s, at, word) {
        return None;
    }
    Some(at + word.len())
}

// A number and the place past the byte that ends it.
pub fn number_at(s: &[u8], at: usize, stop: u8) -> Option<(u64, usize)>
    requires { is_digit stop ≡ false }
    ensures { value_spot s.now result ≡ num_r stop (drop at s.now) }
{
    field(s, at, stop)
}

// A signed number and the place past the byte that ends it.
pub fn signed_at(s: &[u8], at: usize, stop: u8) -> Option<(i64, usize)>
    requires { is_digit stop ≡ false }
    ensures { value_spot s.now result ≡ int_r stop (drop at s.now) }
{
    signed_field(s, at, stop)
}

// The place past the number of layer l and a space.
#[tactic(auto, unfolding(state_forms::specs::Formats::then_read, text::specs::Decimals::is_digit))]
pub fn layer_at(s: &[u8], at: usize, l: usize) -> Option<usize>
    ensures { spot s.now result ≡ (this l 32).read (drop at s.now) }
{
    let (n, p) = number_at(s, at, b' ')?;
    if n != l as u64 {
        return None;
    }
    Some(p)
}
