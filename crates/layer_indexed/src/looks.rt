// The lookup of a key in a layer with an index.
ghost use Rattle.std.specs.Prelude.{◌≡◌, length};
ghost use Rattle.heap.specs.inner.Slices.{table_of};
ghost use Rattle.heap_index.specs.inner.Needs.{Cover};
ghost use Rattle.layer_indexed.specs.Adding.{key_looked};

// Whether a key's lookup ends at the key or at an empty place.
pub fn key_looked(index: &[u64], entries: &[u64], counts: &[i64], len: usize, key: u64) -> bool
    requires { Cover (length entries.now) (length counts.now) len }
    ensures { result ≡ key_looked index.now (table_of entries.now counts.now len) key }
{
    heap_index::look(index, entries, counts, len, key).is_some()
}
