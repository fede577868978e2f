//! A slot of words among others, one behind the other.

ghost use Rattle.std.specs.Prelude.{◌≡◌, ◌+◌, ◌*◌, ◌≤◌, [], ◌∷◌, ◌++◌, length, drop, take};

/// Writes a key, and its visits behind it, from a start on.
#[inline(always)]
pub fn write_slot(words: &mut [u64], start: usize, key: &[u64], visits: u64)
    requires { start + length key.now + 1 ≤ length words.old }
    ensures { words.new ≡ take start words.old ++ ((key.now ++ visits ∷ [])
        ++ drop (start + length key.now + 1) words.old) }
{
    words[start..start + key.len()].copy_from_slice(key);
    words[start + key.len()] = visits;
}
