// What an offer did, as a list tells it: two words a place.
ghost use Rattle.std.specs.Prelude.{◌≡◌, List, [], ◌∷◌, ℕ, ◌+◌, ◌*◌, ◌≤◌, length};
ghost use Rattle.heap.specs.Places.{code_of, displaced_key};
ghost use Rattle.heap.specs.inner.Telling.{tell_at};

use crate::Answer;

// Which of four things an offer did, and the key that was displaced, 0 where none was.
impl From<Answer> for [u64; 2] {
    ghost from_gives = { λ a r. r ≡ code_of a ∷ displaced_key a ∷ [] };

    fn from(a: Answer) -> [u64; 2] {
        // two questions: of one match for both words the compiler makes a jump through a table
        let code = match a {
            Answer::Rescored => 1,
            Answer::Seated => 2,
            Answer::Displaced(_) => 3,
            Answer::TurnedAway => 4,
        };
        let key = match a {
            Answer::Displaced(k) => k,
            Answer::Rescored | Answer::Seated | Answer::TurnedAway => 0,
        };
        [code, key]
    }
}

// Place i of the list tells what an offer did.
pub fn tell_at(list: &mut [u64], i: usize, a: Answer)
    requires { 2 * i + 2 ≤ length list.old }
    ensures { list.new ≡ tell_at list.old i a }
{
    let [code, key] = <[u64; 2]>::from(a);
    list[2 * i] = code;
    list[2 * i + 1] = key;
}
