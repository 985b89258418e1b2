// The lists in which updates and deltas tell what they did: a place of two words for each layer.
ghost use Rattle.std.specs.Prelude.{◌≡◌, ◌++◌, ℕ, ◌*◌, ◌≤◌, length, drop, replicate};
ghost use Rattle.header.specs.Shape.{max_layers};

// The places of all layers become zeros; what lies past them stays.
pub fn zero_places(list: &mut [u64], layers: usize)
    requires { (layers ≤ max_layers) × (2 * layers ≤ length list.old) }
    ensures { list.new ≡ replicate (2 * layers) 0 ++ drop (2 * layers) list.old }
{
    list[..2 * layers].fill(0);
}
