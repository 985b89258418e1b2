// Words, that is byte strings, at places of a text.
// A writer answers the place past what it wrote, so that the next one goes on there.
ghost use Rattle.std.specs.Prelude.{◌≡◌, ℕ, ◌+◌, ◌<◌, ◌≤◌, length, drop};
ghost use Rattle.std.proofs.lemmas.List.Edits.{sets};
ghost use Rattle.text.specs.Words.{is_prefix, flag_digit};

// Whether the word stands at a place.
pub fn has_word(s: &[u8], at: usize, word: &[u8]) -> bool
    ensures { result ≡ is_prefix word.now (drop at s.now) }
{
    s[at.min(s.len())..].starts_with(word)
}

pub fn put_word(out: &mut [u8], at: usize, word: &[u8]) -> usize
    requires { at + length word.now ≤ length out.old }
    ensures value { result ≡ at + length word.now }
    ensures out_after { out.new ≡ sets out.old at word.now }
{
    let end = at + word.len();
    out[at..end].copy_from_slice(word);
    end
}

// `1` for a flag that is true, else `0`.
#[tactic(auto, unfolding(crate::specs::Words::flag_digit))]
pub fn flag_digit(f: bool) -> u8
    ensures { result ≡ flag_digit f }
{
    b'0' + u8::from(f)
}
