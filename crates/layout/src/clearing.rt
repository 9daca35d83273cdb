// The front of a slice of words, cleared.

ghost use Rattle.std.specs.Prelude.{◌≡◌, ◌++◌, ◌≤◌, length, drop, replicate};

// Clears the first `n` words.
pub fn clear(words: &mut [u32], n: usize)
    requires { n ≤ length words.old }
    ensures { words.new ≡ replicate n 0 ++ drop n words.old }
{
    words[..n].fill(0);
}
