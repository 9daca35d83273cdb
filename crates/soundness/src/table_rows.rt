// The tests of the loaded lines and entries that look at words alone (specs/rows/RowTests.antt). Rows are only read.

ghost use Rattle.std.specs.Prelude.{◌≡◌, ◌+◌, ◌*◌, ◌≤◌, length};
ghost use Rattle.model.specs.Area.{entry_row_words};
ghost use Rattle.soundness.specs.rows.RowTests.{lines_ok, entry_row_ok, entry_rows_ok};

use crate::rows::{all_below, zero_from};
use layout::limits::{ENTRY_WORDS, MAX_ARITY};

// Whether the first `k` words are below `m`, and the others 0.
#[tactic(auto, unfolding(crate::specs::rows::RowTests::lines_ok))]
pub fn lines_ok(lines: &[u32], k: usize, m: usize) -> bool
    requires { k ≤ length lines.now }
    ensures { result ≡ lines_ok lines.now k m }
{
    all_below(&lines[..k], m) && zero_from(lines, k)
}

// Whether row `i` is an entry's row, its kind 0 or 1 and its sides below `n`.
fn entry_row_ok(entries: &[u32], n: usize, i: usize) -> bool
    requires { entry_row_words * i + entry_row_words ≤ length entries.now }
    ensures { result ≡ entry_row_ok entries.now n i }
{
    let start = ENTRY_WORDS * i;
    let kind = start + 2;
    if !all_below(&entries[start..kind], n) {
        return false;
    }
    let last = start + (ENTRY_WORDS - 1);
    match entries[kind] {
        0 => all_below(&entries[kind..last], 1),
        1 => {
            let count = entries[kind + 2] as usize;
            count <= MAX_ARITY && all_below(&entries[kind + 3 + count..last], 1)
        }
        _ => false,
    }
}

// Whether the rows are those of `m` entries over `n` terms, and the words behind them 0.
pub fn entry_rows_ok(entries: &[u32], m: usize, n: usize) -> bool
    requires { entry_row_words * m ≤ length entries.now }
    ensures { result ≡ entry_rows_ok entries.now m n }
{
    (0..m).all(|i| entry_row_ok(entries, n, i)) && zero_from(entries, ENTRY_WORDS * m)
}
