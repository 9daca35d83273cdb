// The tests of words that those of loaded rows are made of (specs/rows/RowTests.antt has all of these). Words are only read.

ghost use Rattle.std.specs.Prelude.{◌≡◌, ◌≤◌, length, ltb};
ghost use Rattle.model.specs.Lists.{all};
ghost use Rattle.soundness.specs.rows.RowTests.{zero_from};

// Whether every word is below the limit.
pub fn all_below(words: &[u32], limit: usize) -> bool
    ensures { result ≡ all (λ w. ltb w limit) words.now }
{
    words.iter().all(|w| (*w as usize) < limit)
}

// Whether every word from place `from` on is 0. It reads them all, also behind one that is not: the loop has one way out, so that the
// compiler can take several words at a time.
pub fn zero_from(words: &[u32], from: usize) -> bool
    requires { from ≤ length words.now }
    ensures { result ≡ zero_from words.now from }
{
    let mut zero = true;
    for w in &words[from..] {
        if *w != 0 {
            zero = false;
        }
    }
    zero
}
