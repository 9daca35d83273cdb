#![tactic(auto)]

// Numbers as bytes, one after the other: their length, and writing them to a slice of bytes (specs/Runs.antt). The place to write at goes
// beside the output: the clauses name it (`over_at`).

ghost use Rattle.std.specs.Prelude.{◌≡◌, ◌+◌, ◌≤◌, length};
ghost use Rattle.leb128.specs.Number.{max_groups, max_number, write};
ghost use Rattle.model.specs.Report.{number_bytes};
ghost use Rattle.runs.specs.Runs.{small_words, over_at};

// How many bytes the words take.
pub fn run_length(words: &[u32]) -> usize
    ensures { result ≡ length (number_bytes words.now) }
{
    let mut sum: usize = 0;
    for w in words {
        sum += leb128::length_of(*w);
    }
    sum
}

// Writes a number at place `at` of `out`, where there is room for it, and gives the place behind it.
pub fn put_number(out: &mut [u8], at: usize, n: u32) -> usize
    requires { (n ≤ max_number) × (at + length (write max_groups n) ≤ length out.old) }
    ensures next { result ≡ at + length (write max_groups n) }
    ensures bytes { out.new ≡ over_at out.old at (write max_groups n) }
{
    at + leb128::write(&mut out[at..], n)
}

// Writes the words at place `at` of `out`, and gives the place behind them.
pub fn put_run(words: &[u32], out: &mut [u8], at: usize) -> usize
    requires { small_words words.now × (at + length (number_bytes words.now) ≤ length out.old) }
    ensures next { result ≡ at + length (number_bytes words.now) }
    ensures bytes { out.new ≡ over_at out.old at (number_bytes words.now) }
{
    let mut next = at;
    for w in words {
        next = put_number(out, next, *w);
    }
    next
}
