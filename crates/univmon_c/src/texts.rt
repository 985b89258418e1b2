// States carried home as text: the writer turns C's header, the reader turns the header that it gives.
ghost use Rattle.std.specs.Prelude.{◌≡◌, ℕ};
ghost use Rattle.header.specs.Header.{zero_header};
ghost use Rattle.layout.specs.Lending.{lent_in};
ghost use Rattle.state_text.specs.Calls.{write_call, read_call};
ghost use Rattle.univmon_c.specs.Calls.{one_tier_face, c_left, crossed, c_copied, write_by, c_lent};
ghost use Rattle.univmon_c.specs.Lending.{c_lent_out};

use crate::crossing::{c_answered, known_header};
use crate::{CAnswered, CHeader, CWritten};
use header::Header;

// A state's text at the start of the lent space: 9 for a state that fails the check, 16 for a space that
// is too short.
#[tactic(auto, unfolding(crate::specs::Calls::write_by))]
pub fn univmon_write_state(
    header: CHeader,
    counters: &[i64],
    norms: &[u64],
    entries: &[u64],
    counts: &[i64],
    out: &mut [u8],
) -> CWritten
    ensures { c_copied result out.new ≡ write_by write_call (c_lent header counters.now norms.now entries.now counts.now) out.old }
{
    let Some(h) = known_header(header) else {
        return CWritten {
            refusal: 9,
            bytes: 0,
        };
    };
    CWritten::from(state_text::write_state(h, counters, norms, entries, counts, out))
}

// A state read into the lent slices: 15, 1 to 4, 16, 15, and then the header is all zero.
pub fn univmon_read_state(
    text: &[u8],
    counters: &mut [i64],
    norms: &mut [u64],
    entries: &mut [u64],
    counts: &mut [i64],
) -> CAnswered
    ensures { c_left result.refusal (c_lent_out result.header counters norms entries counts)
        ≡ crossed one_tier_face (read_call text.now (lent_in zero_header counters norms entries counts)) }
{
    c_answered(
        Header::zero(),
        state_reader::read_state(text, counters, norms, entries, counts),
    )
}
